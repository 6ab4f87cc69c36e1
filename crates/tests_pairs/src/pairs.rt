// Runs of the library on two cases whose stores hold the same chunks (f and g), in two orders or with other holes: what it answers on g is
// compared with what it answers on f, number, values and bytes. Buffers are filled with a pattern first, and those of a pair of runs have one
// length; joins and searches have one key, and tallies that are equal before and must be equal after (request #110). Where the stores have one directory, so that they differ in their holes alone, places and indexes are compared too.
use spec::{Refusal, ScanDone};
use tests_plain::bytes::{copy, fill, get_4, least, less, plus, same};
use tests_plain::case;
use tests_report::due::{PATTERN, bound};
use tests_report::holes::has_hole;
use tests_report::tally;
use tests_report::tally::{bump, expect, saw};
use tests_runs::answers::{NOT_RUN, answer, paired, same_bytes};
use tests_runs::clients::{Counted, join_for_pair, paired_counts, search_for_pair, uncounted};
use tests_runs::runs::{
    code_of, scanned_length, scanned_moves, searched_code, searched_count, searched_index, value_of,
};
use tests_vaults::encode::put_key;

// Runs: scan into an exact buffer and a byte short; join likewise; search into exact buffers, with a list a byte short, with an index a
// byte short; scan into a buffer of the bound, so that nothing is measured.
const SCANS: usize = 2;

const JOINS: usize = 4;

const SHORT_INDEX: usize = 6;

const BOUND: usize = 7;

const RUNS: usize = 8;

fn is_scan(way: usize) -> bool {
    if way < SCANS {
        return true;
    }
    way == BOUND
}

fn answered(o: Result<usize, Refusal>) -> usize {
    answer(code_of(o), value_of(o), 0)
}

fn scanned(s: Result<ScanDone, Refusal>) -> usize {
    answer(
        code_of(s),
        scanned_length(s),
        (scanned_moves(s) % 1000000) as usize,
    )
}

// The stores have one directory.
fn only_holes_differ(f: &[u8], g: &[u8]) -> bool {
    let n = 8 + 28 * (get_4(case::store(f), 4) % 16);
    same(f, case::STORE, g, case::STORE, n)
}

// ---- a run of one case

fn scan_one(f: &[u8], buffer: &mut [u8]) -> Counted {
    uncounted(scanned(scan::scan(case::list(f), case::store(f), buffer)))
}

fn join_one(f: &[u8], buffer: &mut [u8]) -> Counted {
    let j = join_for_pair(case::index(f), case::recipes(f), buffer);
    let o = j.outcome;
    let counts = j.tally;
    Counted {
        answer: answered(o),
        tally: counts,
    }
}

fn search_one(f: &[u8], index: &mut [u8], buffer: &mut [u8]) -> Counted {
    let a = search_for_pair(
        case::list(f),
        case::store(f),
        case::recipes(f),
        index,
        buffer,
    );
    let s = a.searched;
    let counts = a.tally;
    Counted {
        answer: answer(searched_code(s), searched_index(s), searched_count(s)),
        tally: counts,
    }
}

// A search whose index goes to the first n bytes of a buffer.
fn search_front(f: &[u8], index: &mut [u8], n: usize, buffer: &mut [u8]) -> Counted {
    if n <= index.len() {
        return search_one(f, &mut index[..n], buffer);
    }
    uncounted(NOT_RUN)
}

// Run number `way`; the index of a search has n bytes.
fn run_one(way: usize, f: &[u8], index: &mut [u8], n: usize, buffer: &mut [u8]) -> Counted {
    fill(buffer, PATTERN);
    if is_scan(way) {
        return scan_one(f, buffer);
    }
    if way < JOINS {
        return join_one(f, buffer);
    }
    search_front(f, index, n, buffer)
}

// Into the first `room` bytes of the buffer.
fn run_front(
    way: usize,
    f: &[u8],
    index: &mut [u8],
    n: usize,
    buffer: &mut [u8],
    room: usize,
) -> Counted {
    if room <= buffer.len() {
        return run_one(way, f, index, n, &mut buffer[..room]);
    }
    uncounted(NOT_RUN)
}

// ---- the runs of both

// The length of the buffer that is tried: of the index that is due for a scan, the bound, else of the list.
fn room_of(f: &[u8], way: usize) -> usize {
    if way == BOUND {
        return bound(f);
    }
    if way < SCANS {
        return less(case::length_of(f, 2), way % 2);
    }
    less(case::rows(f).len(), way % 2)
}

fn index_room(f: &[u8], way: usize) -> usize {
    less(case::length_of(f, 2), (way == SHORT_INDEX) as usize)
}

// From where on the buffers must be the same: from the start, but behind an index that was written where indexes differ in their order.
fn from_where(way: usize, f: &[u8], g: &[u8], answer: usize) -> usize {
    if only_holes_differ(f, g) {
        return 0;
    }
    if is_scan(way) {
        return answer / 1000 % 1000000;
    }
    0
}

// The indexes of two searches, which may differ in their order.
fn same_indexes(f: &[u8], g: &[u8], a: &[u8], b: &[u8]) -> bool {
    if only_holes_differ(f, g) {
        return same_bytes(a, b);
    }
    true
}

fn operation_of(way: usize) -> usize {
    if is_scan(way) {
        return tally::SCAN;
    }
    if way < JOINS {
        tally::JOIN
    } else {
        tally::SEARCH
    }
}

// An accepted scan.
fn is_moved(way: usize, answer: usize) -> bool {
    if is_scan(way) {
        return answer % 1000 == 0;
    }
    false
}

// The buffers' first `room` bytes are the same from an offset on.
fn same_front(a: &[u8], b: &[u8], from: usize, room: usize) -> bool {
    same(a, from, b, from, less(room, from))
}

fn run_paired(counts: &mut [u64], way: usize, got: Counted, expected: Counted, rest: bool) {
    paired_counts(counts, operation_of(way), got, expected, rest);
    saw(counts, tally::MOVES + 10, is_moved(way, expected.answer));
}

fn run_both(counts: &mut [u64], way: usize, f: &[u8], g: &[u8], a: &mut [u8], b: &mut [u8]) {
    let mut index = [PATTERN; 9000];
    let mut other = [PATTERN; 9000];
    let room = room_of(f, way);
    let n = index_room(f, way);
    let expected = run_front(way, f, &mut index, n, a, room);
    let got = run_front(way, g, &mut other, n, b, room);
    let ok = same_front(a, b, from_where(way, f, g, expected.answer), room);
    run_paired(counts, way, got, expected, ok);
    expect(counts, same_indexes(f, g, &index, &other));
}

pub fn runs_both(counts: &mut [u64], f: &[u8], g: &[u8], a: &mut [u8], b: &mut [u8]) {
    let n = RUNS;
    for way in 0..n {
        run_both(counts, way, f, g, a, b);
    }
}

// ---- checks and sizes of both

fn store_check(f: &[u8]) -> usize {
    answer(code_of(store::check(case::store(f))), 0, 0)
}

fn index_check(f: &[u8]) -> usize {
    answer(code_of(index::check(case::index(f))), 0, 0)
}

fn size(f: &[u8]) -> usize {
    answered(scan::size(case::list(f), case::store(f)))
}

fn count(f: &[u8]) -> usize {
    answered(join::count(case::index(f), case::recipes(f)))
}

pub fn checks_both(counts: &mut [u64], f: &[u8], g: &[u8]) {
    paired(
        counts,
        tally::STORE_CHECK,
        store_check(g),
        store_check(f),
        true,
    );
    paired(counts, tally::SIZE, size(g), size(f), true);
    paired(
        counts,
        tally::INDEX_CHECK,
        index_check(g),
        index_check(f),
        true,
    );
    paired(counts, tally::COUNT, count(g), count(f), true);
}

// ---- lookups in both

// The number of a lookup, with the place and the length where they must be the same.
fn find_chunk(store: &[u8], key: &[u8], placed: bool) -> usize {
    let code = code_of(store::find_chunk(store, key));
    if placed {
        return answer(
            code,
            store::chunk_start(store, key),
            store::chunk_length(store, key),
        );
    }
    answer(code, 0, 0)
}

fn find_body(index: &[u8], key: &[u8], placed: bool) -> usize {
    let code = code_of(index::find_body(index, key));
    if placed {
        return answer(
            code,
            index::body_start(index, key),
            index::body_length(index, key),
        );
    }
    answer(code, 0, 0)
}

fn chunk_both(counts: &mut [u64], f: &[u8], g: &[u8], key: &[u8], placed: bool) {
    let expected = find_chunk(f, key, placed);
    let got = find_chunk(g, key, placed);
    let ok = same_bytes(store::chunk(f, key), store::chunk(g, key));
    paired(counts, tally::CHUNK_LOOKUP, got, expected, ok);
}

fn body_both(counts: &mut [u64], f: &[u8], g: &[u8], key: &[u8], placed: bool) {
    let expected = find_body(f, key, placed);
    let got = find_body(g, key, placed);
    let ok = same_bytes(index::body(f, key), index::body(g, key));
    paired(counts, tally::BODY_LOOKUP, got, expected, ok);
}

// Chunk and body under the fingerprint of chunk c.
fn lookup_both(counts: &mut [u64], f: &[u8], g: &[u8], c: usize) {
    let mut key = [0u8; 20];
    let placed = only_holes_differ(f, g);
    put_key(&mut key, 0, c);
    chunk_both(counts, case::store(f), case::store(g), &key, placed);
    body_both(counts, case::index(f), case::index(g), &key, placed);
}

// Every chunk that a vault may have, and one more.
pub fn lookups_both(counts: &mut [u64], f: &[u8], g: &[u8]) {
    let n: usize = 9;
    for c in 0..n {
        lookup_both(counts, f, g, c);
    }
}

// ---- the index of g, and what was seen

fn put_index(g: &mut [u8], code: u8, n: usize, index: &[u8]) {
    if code != 0 {
        return;
    }
    let at = case::index_at(g);
    copy(g, at, index, 0, n);
    case::put_length(g, 2, plus(at, n));
}

// What the scan of a case's store writes becomes the case's index.
pub fn scan_index(g: &mut [u8], buffer: &mut [u8]) {
    let s = scan::scan(case::list(g), case::store(g), buffer);
    put_index(g, code_of(s), scanned_length(s), buffer);
}

fn kind_of(f: &[u8]) -> usize {
    if case::scan_code(f) != 0 {
        return 2;
    }
    if case::join_code(f) != 0 {
        return 3;
    }
    (case::count(f) == 0) as usize
}

fn saw_both(counts: &mut [u64], f: &[u8]) {
    bump(counts, tally::PAIRS + kind_of(f) % 4);
    bump(counts, tally::CASES);
}

// How many of the two stores have a hole.
fn with_holes(f: &[u8], g: &[u8]) -> usize {
    plus(has_hole(f) as usize, has_hole(g) as usize)
}

// Two orders.
pub fn saw_orders(counts: &mut [u64], f: &[u8], g: &[u8]) {
    saw(
        counts,
        tally::ORDERS,
        !same_bytes(case::index(f), case::index(g)),
    );
    bump(counts, tally::ORDERS + 1 + with_holes(f, g) % 3);
    saw_both(counts, f);
}

// Other holes, and nothing else.
pub fn saw_holes(counts: &mut [u64], f: &[u8], g: &[u8]) {
    let a = case::length_of(f, 1);
    let b = case::length_of(g, 1);
    let alike = same(f, case::STORE, g, case::STORE, least(a, b));
    expect(counts, only_holes_differ(f, g));
    saw(counts, tally::OTHER_HOLES, !alike);
    saw(counts, tally::OTHER_HOLES + 1, a < b);
    saw(counts, tally::OTHER_HOLES + 2, b < a);
    saw_both(counts, f);
}
