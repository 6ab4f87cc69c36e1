// Runs of the library's operations on a case, each compared with what the plain computations expect: the number, the value, every byte of
// the buffer. Buffers are filled with a pattern first; long ones, exact ones and ones a byte short are tried.
use crate::clients::{count_for_one, join_for_one, joined_as_due, search_for_one};
use search::Answer;
use spec::{Refusal, ScanDone, SearchDone, SearchRefusal};
use tests_plain::bytes::{fill, less, plus};
use tests_plain::case;
use tests_plain::case::{check_code, is_run};
use tests_report::due::{
    PATTERN, SEARCH_INDEX, as_due, bound, due_length, early_code, fill_both, late, moves_as_due,
    saw_buffer, saw_moves, saw_search, scan_late, search_late, value_as_due,
};
use tests_report::tally;
use tests_report::tally::compared;

// The number of any answer: 0 where there is no refusal.
pub fn code_of<T: Drop>(answer: Result<T, Refusal>) -> u8 {
    match answer {
        Ok(_) => 0,
        Err(refusal) => refusal.number(),
    }
}

pub fn value_of(answer: Result<usize, Refusal>) -> usize {
    answer.unwrap_or(0)
}

pub fn scanned_length(s: Result<ScanDone, Refusal>) -> usize {
    match s {
        Ok(done) => done.size,
        Err(_) => 0,
    }
}

pub fn scanned_moves(s: Result<ScanDone, Refusal>) -> u64 {
    match s {
        Ok(done) => done.moves,
        Err(_) => 0,
    }
}

// ---- checks and sizes

pub fn checks(counts: &mut [u64], f: &[u8]) {
    let list = keywords::check(case::list(f));
    compared(
        counts,
        tally::KEYWORD_CHECK,
        code_of(list),
        check_code(f, 0),
        true,
    );
    let store = store::check(case::store(f));
    compared(
        counts,
        tally::STORE_CHECK,
        code_of(store),
        check_code(f, 1),
        true,
    );
    let index = index::check(case::index(f));
    compared(
        counts,
        tally::INDEX_CHECK,
        code_of(index),
        check_code(f, 2),
        true,
    );
}

fn size_run(counts: &mut [u64], f: &[u8]) {
    let c = case::scan_code(f);
    if is_run(f, c) {
        let o = scan::size(case::list(f), case::store(f));
        let ok = value_as_due(value_of(o), c, case::length_of(f, 2));
        compared(counts, tally::SIZE, code_of(o), c, ok);
    }
}

fn count_run(counts: &mut [u64], f: &[u8]) {
    let c = case::join_code(f);
    if is_run(f, c) {
        let o = join::count(case::index(f), case::recipes(f));
        let ok = value_as_due(value_of(o), c, case::count(f));
        compared(counts, tally::COUNT, code_of(o), c, ok);
    }
}

// A scan's length, moves and index, where it must answer `code`.
fn scan_as_due(s: Result<ScanDone, Refusal>, code: u8, f: &[u8], buffer: &[u8]) -> bool {
    let due = case::index(f);
    if moves_as_due(scanned_moves(s), code, case::moves(f)) {
        return as_due(scanned_length(s), code, due.len(), buffer, due);
    }
    false
}

fn scan_into(counts: &mut [u64], f: &[u8], buffer: &mut [u8]) {
    fill(buffer, PATTERN);
    let c = scan_late(f, buffer.len());
    let s = scan::scan(case::list(f), case::store(f), buffer);
    let ok = scan_as_due(s, c, f, buffer);
    compared(counts, tally::SCAN, code_of(s), c, ok);
    saw_buffer(counts, 0, c, case::length_of(f, 2), buffer.len());
    saw_moves(counts, f, c, buffer.len());
}

// One join, where it must answer `code`.
fn join_as(counts: &mut [u64], f: &[u8], buffer: &mut [u8], code: u8) {
    let j = join_for_one(case::index(f), case::recipes(f), buffer);
    let o = j.outcome;
    let due = count_for_one(code, case::count(f));
    let ok = joined_as_due(j, code, due, buffer, case::rows(f));
    compared(counts, tally::JOIN, code_of(o), code, ok);
}

fn join_into(counts: &mut [u64], f: &[u8], buffer: &mut [u8]) {
    let n = case::rows(f).len();
    let c = late(case::join_code(f), n, buffer.len(), 18);
    fill(buffer, PATTERN);
    join_as(counts, f, buffer, c);
    saw_buffer(counts, 1, c, n, buffer.len());
}

// ---- the search whole

pub type Searched = Result<SearchDone, SearchRefusal>;

pub fn searched_code(s: Searched) -> u8 {
    match s {
        Ok(_) => 0,
        Err(SearchRefusal::Scan(refusal)) => refusal.number(),
        Err(SearchRefusal::Join(_, refusal)) => refusal.number(),
    }
}

pub fn searched_index(s: Searched) -> usize {
    match s {
        Ok(done) => done.size,
        Err(SearchRefusal::Scan(_)) => 0,
        Err(SearchRefusal::Join(n, _)) => n,
    }
}

pub fn searched_count(s: Searched) -> usize {
    match s {
        Ok(done) => done.count,
        Err(_) => 0,
    }
}

// A search's index and list, where its scan must answer `scan` and it itself `code`.
fn both_as_due(s: Searched, scan: u8, code: u8, f: &[u8], index: &[u8], buffer: &[u8]) -> bool {
    let due = case::index(f);
    if as_due(searched_index(s), scan, due.len(), index, due) {
        return as_due(
            searched_count(s),
            code,
            case::count(f),
            buffer,
            case::rows(f),
        );
    }
    false
}

// A search's index, list and tally.
fn all_as_due(a: Answer, scan: u8, code: u8, f: &[u8], index: &[u8], buffer: &[u8]) -> bool {
    let s = a.searched;
    if a.tally == count_for_one(code, case::count(f)) {
        return both_as_due(s, scan, code, f, index, buffer);
    }
    false
}

// One search, where its scan must answer `scan` and it itself `code`.
fn search_as(
    counts: &mut [u64],
    f: &[u8],
    index: &mut [u8],
    buffer: &mut [u8],
    scan: u8,
    code: u8,
) {
    let a = search_for_one(
        case::list(f),
        case::store(f),
        case::recipes(f),
        index,
        buffer,
    );
    let s = a.searched;
    let ok = all_as_due(a, scan, code, f, index, buffer);
    compared(counts, tally::SEARCH, searched_code(s), code, ok);
}

fn search_into(counts: &mut [u64], f: &[u8], index: &mut [u8], buffer: &mut [u8]) {
    fill_both(index, buffer);
    let scan = scan_late(f, index.len());
    let c = search_late(scan, f, buffer.len());
    search_as(counts, f, index, buffer, scan, c);
    saw_search(counts, f, scan, c, index.len(), buffer.len());
}

// A search whose list goes to the buffer that is tried.
fn search_list(counts: &mut [u64], f: &[u8], buffer: &mut [u8]) {
    let mut index = [0u8; 9000];
    search_into(counts, f, &mut index, buffer);
}

// A search whose index goes to the buffer that is tried; a list that is longer than the other one is refused.
fn search_index(counts: &mut [u64], f: &[u8], buffer: &mut [u8]) {
    let mut list = [0u8; 6000];
    search_into(counts, f, buffer, &mut list);
}

fn run_into(counts: &mut [u64], operation: usize, f: &[u8], buffer: &mut [u8]) {
    if operation == tally::SCAN {
        return scan_into(counts, f, buffer);
    }
    if operation == tally::JOIN {
        return join_into(counts, f, buffer);
    }
    if operation == tally::SEARCH {
        return search_list(counts, f, buffer);
    }
    search_index(counts, f, buffer);
}

// Into the first `room` bytes of the buffer.
fn run_front(counts: &mut [u64], operation: usize, f: &[u8], buffer: &mut [u8], room: usize) {
    if room <= buffer.len() {
        run_into(counts, operation, f, &mut buffer[..room]);
    }
}

// Into a long buffer, an exact one, and one a byte short.
fn run_rooms(counts: &mut [u64], operation: usize, f: &[u8], buffer: &mut [u8], n: usize) {
    run_front(counts, operation, f, buffer, plus(n, 40));
    run_front(counts, operation, f, buffer, n);
    run_front(counts, operation, f, buffer, less(n, 1));
}

fn run(counts: &mut [u64], operation: usize, f: &[u8], buffer: &mut [u8]) {
    if is_run(f, early_code(f, operation)) {
        run_rooms(counts, operation, f, buffer, due_length(f, operation));
    }
}

// The join of a case, and its count.
pub fn join_runs(counts: &mut [u64], f: &[u8], buffer: &mut [u8]) {
    count_run(counts, f);
    run(counts, tally::JOIN, f, buffer);
}

// A scan that is accepted, into a buffer of the bound and one a byte shorter.
fn bound_runs(counts: &mut [u64], f: &[u8], buffer: &mut [u8]) {
    if case::scan_code(f) != 0 {
        return;
    }
    if is_run(f, 0) {
        run_front(counts, tally::SCAN, f, buffer, bound(f));
        run_front(counts, tally::SCAN, f, buffer, less(bound(f), 1));
    }
}

// The scan of a case, and its size.
pub fn scan_runs(counts: &mut [u64], f: &[u8], buffer: &mut [u8]) {
    size_run(counts, f);
    run(counts, tally::SCAN, f, buffer);
    bound_runs(counts, f, buffer);
}

pub fn search_runs(counts: &mut [u64], f: &[u8], buffer: &mut [u8]) {
    run(counts, tally::SEARCH, f, buffer);
    run(counts, SEARCH_INDEX, f, buffer);
}

// A search into an index buffer and the first `room` bytes of a list buffer.
fn search_front(counts: &mut [u64], f: &[u8], index: &mut [u8], buffer: &mut [u8], room: usize) {
    if room <= buffer.len() {
        search_into(counts, f, index, &mut buffer[..room]);
    }
}

// Searches with a long index buffer, whose lists go to an exact buffer and one a byte short.
pub fn search_long(counts: &mut [u64], f: &[u8], index: &mut [u8], buffer: &mut [u8]) {
    let n = case::rows(f).len();
    search_front(counts, f, index, buffer, n);
    search_front(counts, f, index, buffer, less(n, 1));
}
