// Joins and searches with a key and a tally, each compared with what is due: the number, the count, every byte of the buffer, each client's count.
// Buffers are filled with a pattern first.
use crate::plain::{Due, below, due_of, full, key_code};
use search::Answer;
use spec::Tally;
use tests_plain::bytes::{fill, less, num, plus};
use tests_plain::case;
use tests_report::due::{PATTERN, as_due, late, scan_late, search_late};
use tests_report::tally;
use tests_report::tally::{bump, compared, saw};
use tests_runs::clients::{joined_as_due, no_counts};
use tests_runs::runs::{code_of, searched_code, searched_count};

// ---- what was seen

// 0 where occurrences are listed, 1 where none is, 2 where index or recipes are refused, then 18, 22, 23.
fn number_kind(code: u8, n: usize) -> usize {
    if code == 0 {
        return (n == 0) as usize;
    }
    if code < 18 {
        return 2;
    }
    if code == 18 {
        3
    } else {
        less(code as usize, 18)
    }
}

// What is wrong with a key: 0, 15 or 17 bytes; client 4 or 255 for keyword 0; for the last keyword.
fn key_kind(key: &[u8], words: usize) -> usize {
    if key.len() != 16 {
        return key.len() / 8;
    }
    if 3 < num(key, 0) {
        return plus(3, num(key, 0) / 255);
    }
    plus(5, num(key, less(words, 1)) / 255)
}

// The one client whose sum passes 64 bits; 4 where there are several.
fn past_kind(past: usize) -> usize {
    if past == 1 {
        return 0;
    }
    if past == 2 {
        return 1;
    }
    if past == 4 {
        return 2;
    }
    if past == 8 { 3 } else { 4 }
}

fn saw_accepted(counts: &mut [u64], key: &[u8], words: usize, before: Tally, after: Tally) {
    saw(counts, tally::CLIENTS + 6, num(key, words) == 255);
    let zero = before == no_counts();
    saw(counts, tally::CLIENTS + 18, zero);
    saw(counts, tally::CLIENTS + 19, below(before, after) == 15);
    saw(counts, tally::CLIENTS + 20, full(before) != 0);
    saw(counts, tally::CLIENTS + 21, full(after) != full(before));
}

// A wrong key, for a list of n bytes.
fn saw_key(counts: &mut [u64], n: usize, key: &[u8], words: usize, past: usize) {
    bump(counts, tally::CLIENTS + 7 + key_kind(key, words) % 7);
    saw(counts, tally::CLIENTS + 14, n == 0);
    saw(counts, tally::CLIENTS + 17, past != 0);
}

fn saw_refused(counts: &mut [u64], due: Due, n: usize, key: &[u8], words: usize) {
    if due.code == 22 {
        return saw_key(counts, n, key, words, due.past);
    }
    if due.code == 23 {
        return bump(counts, tally::CLIENTS + 22 + past_kind(due.past) % 5);
    }
    if due.code == 18 {
        saw(counts, tally::CLIENTS + 15, key_code(key, words) != 0);
        saw(counts, tally::CLIENTS + 16, due.past != 0);
    }
}

// A join, for a list of n bytes.
fn saw_join(counts: &mut [u64], due: Due, n: usize, key: &[u8], words: usize, before: Tally) {
    bump(counts, tally::CASES);
    bump(counts, tally::CLIENTS + number_kind(due.code, n) % 6);
    if due.code == 0 {
        return saw_accepted(counts, key, words, before, due.tally);
    }
    saw_refused(counts, due, n, key, words)
}

// ---- calls

// A join; the tally after it.
fn join_as(
    counts: &mut [u64],
    index: &[u8],
    recipes: &[u8],
    rows: &[u8],
    key: &[u8],
    before: Tally,
    buffer: &mut [u8],
    due: Due,
) -> Tally {
    fill(buffer, PATTERN);
    let j = join::tallied(index, recipes, key, buffer, before);
    let o = j.outcome;
    let ok = joined_as_due(j, due.code, due.tally, buffer, rows);
    compared(counts, tally::JOIN, code_of(o), due.code, ok);
    j.tally
}

// A join, where `early` is due before the test of the buffer, or the list `rows`; the tally after it.
pub(crate) fn join_into(
    counts: &mut [u64],
    index: &[u8],
    recipes: &[u8],
    rows: &[u8],
    early: u8,
    key: &[u8],
    before: Tally,
    buffer: &mut [u8],
) -> Tally {
    let words = num(index, 8);
    let code = late(early, rows.len(), buffer.len(), 18);
    let due = due_of(code, rows, key, words, before);
    saw_join(counts, due, rows.len(), key, words, before);
    join_as(counts, index, recipes, rows, key, before, buffer, due)
}

fn search_as_due(a: Answer, due: Due, buffer: &[u8], rows: &[u8]) -> bool {
    let s = a.searched;
    if a.tally == due.tally {
        return as_due(searched_count(s), due.code, rows.len() / 9, buffer, rows);
    }
    false
}

fn search_as(
    counts: &mut [u64],
    f: &[u8],
    key: &[u8],
    before: Tally,
    index: &mut [u8],
    buffer: &mut [u8],
    due: Due,
) {
    let a = search::search(
        case::list(f),
        case::store(f),
        case::recipes(f),
        key,
        index,
        buffer,
        before,
    );
    let s = a.searched;
    let ok = search_as_due(a, due, buffer, case::rows(f));
    compared(counts, tally::SEARCH, searched_code(s), due.code, ok);
}

// Where a case is to be searched.
fn search_into(
    counts: &mut [u64],
    f: &[u8],
    searched: bool,
    key: &[u8],
    before: Tally,
    buffer: &mut [u8],
) {
    if !searched {
        return;
    }
    let mut index = [0u8; 9000];
    let code = search_late(scan_late(f, 9000), f, buffer.len());
    let due = due_of(code, case::rows(f), key, num(case::list(f), 0), before);
    fill(buffer, PATTERN);
    search_as(counts, f, key, before, &mut index, buffer, due);
}

// A case joined, and searched where it is to be; the tally after the join.
fn run_into(
    counts: &mut [u64],
    f: &[u8],
    searched: bool,
    key: &[u8],
    before: Tally,
    buffer: &mut [u8],
) -> Tally {
    search_into(counts, f, searched, key, before, buffer);
    join_into(
        counts,
        case::index(f),
        case::recipes(f),
        case::rows(f),
        case::join_code(f),
        key,
        before,
        buffer,
    )
}

// Into the first `room` bytes of the buffer.
pub(crate) fn run_front(
    counts: &mut [u64],
    f: &[u8],
    searched: bool,
    key: &[u8],
    before: Tally,
    buffer: &mut [u8],
    room: usize,
) -> Tally {
    if room <= buffer.len() {
        return run_into(counts, f, searched, key, before, &mut buffer[..room]);
    }
    before
}
