// What is due: the numbers, values and bytes that an operation must answer on a case, and the comparison with what it answered.
use crate::holes::chunk_count;
use crate::lanes::is_linked;
use crate::tally;
use crate::tally::{bump, saw};
use tests_plain::bytes::{all, fill, get_4, num, part, plus, same};
use tests_plain::case;
use tests_plain::case::first;

// A lookup's number: the check's; 19; 15 where there is no entry.
pub fn lookup_code(check: u8, size: usize, entry: usize) -> u8 {
    if check != 0 {
        return check;
    }
    if size != 20 {
        return 19;
    }
    if entry == 0 { 15 } else { 0 }
}

// A field of the entry found, 0 on a refusal.
pub fn field(bytes: &[u8], code: u8, at: usize) -> usize {
    if code != 0 {
        return 0;
    }
    get_4(bytes, at)
}

// A part is the n bytes from `start` on.
pub fn is_part(found: &[u8], whole: &[u8], start: usize, n: usize) -> bool {
    if found.len() != n {
        return false;
    }
    same(found, 0, whole, start, n)
}

pub const PATTERN: u8 = 0xE5;

// A search with the buffer that is tried as its index buffer.
pub const SEARCH_INDEX: usize = 10;

// A value is the one due; on a refusal there is none.
pub fn value_as_due(value: usize, code: u8, due: usize) -> bool {
    if code != 0 {
        return value == 0;
    }
    value == due
}

// A buffer holds the bytes that were due and the pattern behind them; on a refusal the pattern alone.
fn holds(buffer: &[u8], code: u8, due: &[u8]) -> bool {
    if code != 0 {
        return all(buffer, 0, PATTERN);
    }
    if buffer.len() < due.len() {
        return false;
    }
    if same(buffer, 0, due, 0, due.len()) {
        return all(buffer, due.len(), PATTERN);
    }
    false
}

// The refusal that a buffer of `room` bytes adds to `code`: `late` where `n` bytes do not fit.
pub fn late(code: u8, n: usize, room: usize, late: u8) -> u8 {
    if code != 0 {
        return code;
    }
    if room < n { late } else { 0 }
}

// ---- moves

// The moves of an answer are the ones due; a refusal has none.
pub fn moves_as_due(moves: u64, code: u8, due: usize) -> bool {
    if code != 0 {
        return moves == 0;
    }
    moves == due as u64
}

// The product, by sums.
pub(crate) fn times(a: usize, b: usize) -> usize {
    let mut n: usize = 0;
    for i in 0..a {
        n = plus(n, b);
    }
    n
}

// The bound: a scan into a buffer of this length, or a longer one, measures nothing before it writes.
pub fn bound(f: &[u8]) -> usize {
    let c = chunk_count(f) % 16;
    let records = times(
        num(case::list(f), 0),
        17 * c + 3 * (case::length_of(f, 1) % 1048576),
    );
    plus(8 + case::length_of(f, 0) % 65536 + 32 * c, records)
}

fn bound_kind(room: usize, bound: usize) -> usize {
    if room == bound {
        return 1;
    }
    if bound < room {
        return 2;
    }
    if plus(room, 1) == bound { 3 } else { 4 }
}

// A chunk of `size` bytes or more is among the first n.
fn has_long(f: &[u8], n: usize, size: usize) -> bool {
    for c in 0..n {
        if size <= get_4(f, plus(case::store_entry(c), 24)) {
            return true;
        }
    }
    false
}

fn store_kind(f: &[u8]) -> usize {
    if chunk_count(f) == 0 {
        return 5;
    }
    if has_long(f, chunk_count(f), 65537) {
        return 8;
    }
    if has_long(f, chunk_count(f), 256) {
        7
    } else {
        6
    }
}

// A scan that was accepted, into a buffer of `room` bytes.
pub fn saw_moves(counts: &mut [u64], f: &[u8], code: u8, room: usize) {
    if code == 0 {
        bump(counts, tally::MOVES);
        bump(counts, tally::MOVES + bound_kind(room, bound(f)) % 10);
        bump(counts, tally::MOVES + store_kind(f) % 10);
        saw(counts, tally::MOVES + 9, is_linked(f));
    }
}

// ---- runs into a buffer

// Exact buffers that were filled, and refused ones a byte short; for scan, join, and a search's list and index.
pub fn saw_buffer(counts: &mut [u64], kind: usize, code: u8, n: usize, room: usize) {
    if n == 0 {
        return;
    }
    if code == 0 {
        return saw(counts, tally::BUFFERS + kind % 4, room == n);
    }
    if code == 9 {
        return saw(counts, tally::BUFFERS + kind % 4 + 4, plus(room, 1) == n);
    }
    if code == 18 {
        saw(counts, tally::BUFFERS + kind % 4 + 4, plus(room, 1) == n);
    }
}

pub fn as_due(value: usize, code: u8, n: usize, buffer: &[u8], due: &[u8]) -> bool {
    if value_as_due(value, code, n) {
        return holds(buffer, code, due);
    }
    false
}

pub fn scan_late(f: &[u8], room: usize) -> u8 {
    late(case::scan_code(f), case::length_of(f, 2), room, 9)
}

// The search's own number: its scan's, the recipes', the list's.
pub fn search_late(scan: u8, f: &[u8], room: usize) -> u8 {
    late(
        first(scan, case::search_code(f)),
        case::rows(f).len(),
        room,
        18,
    )
}

pub fn fill_both(index: &mut [u8], buffer: &mut [u8]) {
    fill(index, PATTERN);
    fill(buffer, PATTERN);
}

pub fn saw_search(counts: &mut [u64], f: &[u8], scan: u8, code: u8, index: usize, list: usize) {
    saw_buffer(counts, 2, code, case::rows(f).len(), list);
    saw_buffer(counts, 3, scan, case::length_of(f, 2), index);
}

// ---- the buffers tried

// The length of what an operation must write to the buffer that is tried.
pub fn due_length(f: &[u8], operation: usize) -> usize {
    if operation == tally::SCAN {
        return case::length_of(f, 2);
    }
    if operation == SEARCH_INDEX {
        return case::length_of(f, 2);
    }
    case::rows(f).len()
}

// What it must answer before the test of the buffer.
pub fn early_code(f: &[u8], operation: usize) -> u8 {
    if operation == tally::SCAN {
        return case::scan_code(f);
    }
    if operation == tally::JOIN {
        return case::join_code(f);
    }
    case::search_code(f)
}

// ---- the search program's text

// What is due in a buffer, where `most` bytes are asked of it.
fn text_in(text: &[u8], room: usize, most: usize) -> &[u8] {
    if room < most {
        return part(text, 0, 0);
    }
    part(text, 0, text.len())
}

fn is_text(out: &[u8], n: usize, due: &[u8]) -> bool {
    if n != due.len() {
        return false;
    }
    holds(out, 0, due)
}

// 0 where a buffer is longer than asked, 1 where it is exact, 2 where it is shorter.
fn buffer_kind(room: usize, most: usize) -> usize {
    if most < room {
        return 0;
    }
    if room == most { 1 } else { 2 }
}

// An output: n is the length that was answered; a buffer shorter than `most` bytes must be left as it was.
pub fn printed(counts: &mut [u64], out: &[u8], n: usize, text: &[u8], most: usize) {
    let ok = is_text(out, n, text_in(text, out.len(), most));
    saw(counts, tally::DIFFERENCES, !ok);
    bump(
        counts,
        tally::OUTPUT_BUFFERS + buffer_kind(out.len(), most) % 3,
    );
}

fn text_kind(text: &[u8]) -> usize {
    if same(text, 0, b"too long ", 0, 9) {
        return 3;
    }
    if same(text, 0, b"refused ", 0, 8) {
        return 2;
    }
    if same(text, 0, b"finds 0\n", 0, 8) {
        1
    } else {
        0
    }
}

// A case of outputs, by the text that is due.
pub fn saw_text(counts: &mut [u64], text: &[u8]) {
    bump(counts, tally::OUTPUTS + text_kind(text) % 4);
    bump(counts, tally::CASES);
}
