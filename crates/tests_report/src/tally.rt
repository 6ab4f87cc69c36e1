// What was counted: calls of the library by operation and by the number that was answered, cases by kind. A call counts at the place where
// its answer is compared with what is expected.
use tests_plain::bytes::{less, plus};

// The counter of stores that give a number.
pub fn store_place(code: u8) -> usize {
    if code == 20 {
        return STORES + 5;
    }
    plus(STORES, less(code as usize, 4))
}

// Places of the counters: numbers 0 to 23, operations, differences, cases since the last line, kinds of cases (those of long chunks 64 behind,
// those of chunks longer than a window 96 behind, those by holes 112 behind), kinds of buffers.
pub(crate) const OPERATIONS: usize = 32;

pub(crate) const DIFFERENCES: usize = 46;

pub const CASES: usize = 47;

pub(crate) const KINDS: usize = 48;

pub(crate) const BUFFERS: usize = 80;

// Stores that gave 0, 5, 6, 7, 8, 20.
pub(crate) const STORES: usize = 88;

// Outputs of the search program: those that list occurrences, list none, tell a refusal, name a file; then by their buffers: long, exact, a
// byte short.
pub const OUTPUTS: usize = 96;

pub const OUTPUT_BUFFERS: usize = 100;

// Stores in another order: those with another index; with holes in neither, in one, in both.
pub const ORDERS: usize = 104;

// Scans whose moves were compared: all; into a buffer of the bound at which a scan measures nothing, a longer one, one a byte shorter, a
// shorter one; of stores without chunks, with chunks below 256 bytes alone, with longer ones, with one longer than a window; with links
// followed; of two stores.
pub const MOVES: usize = 132;

// Stores with other holes: those with other bytes in them, with more bytes behind the last chunk, with fewer.
pub const OTHER_HOLES: usize = 168;

// Two stores, in another order or with other holes: those that list occurrences, list none, are refused by the scan, by the join; then the
// answers that were compared, and those whose tallies were added to.
pub const PAIRS: usize = 172;

pub const ANSWERS: usize = 176;

pub const TALLIES: usize = 177;

// Compactions: cases by the number that the buffer has no part in (0, 5, 6, 7, 8, 20, 14, 15); calls into a longer buffer, an exact one, one a
// byte short; cases by what becomes of the store and by what the recipes name.
pub const COMPACTED: usize = 180;

pub const COMPACTION_BUFFERS: usize = 188;

pub const COMPACTION_KINDS: usize = 192;

// Occurrences over 2 to 32 chunks; behind them, 184 behind the kinds of cases, those of cases of small chunks.
pub(crate) const SPANS: usize = 200;

// Bodies with sets, good and damaged, by what they have; those under an older mark are the last.
pub const BODIES: usize = 256;

// Queries: cases with lines, without a line, refused for the index, with 14 to 17, with 21; files with a line, without one; lines by what their
// choice shows. Then calls by their buffers: longer, exact, a byte short, empty with lines, empty without a line; refused whatever the buffer.
pub const QUERY_KINDS: usize = 272;

pub const QUERY_BUFFERS: usize = 288;

// Joins with a key and a tally (request #110): by what is due, by the key, by the tests that fail together, by the tally; those in lists of
// joins into one tally.
pub const CLIENTS: usize = 296;

// Room for the counters.
pub const ALL: usize = 328;

// The operations.
pub const KEYWORD_CHECK: usize = 0;

pub const STORE_CHECK: usize = 1;

pub const SIZE: usize = 2;

pub const SCAN: usize = 3;

pub const INDEX_CHECK: usize = 4;

pub const COUNT: usize = 5;

pub const JOIN: usize = 6;

pub const CHUNK_LOOKUP: usize = 7;

pub const BODY_LOOKUP: usize = 8;

pub const SEARCH: usize = 9;

pub const COMPACTION_SIZE: usize = 10;

pub const COMPACTION: usize = 11;

pub const QUERY_COUNT: usize = 12;

pub const QUERY: usize = 13;

pub fn bump(counts: &mut [u64], i: usize) {
    if i < counts.len() {
        counts[i] = std::num::wrapping_add_u64(counts[i], 1);
    }
}

// Counts at place i, if `seen`.
pub fn saw(counts: &mut [u64], i: usize, seen: bool) {
    if seen {
        bump(counts, i);
    }
}

fn answer(got: u8, expected: u8, rest: bool) -> usize {
    if got != expected {
        return DIFFERENCES;
    }
    if rest {
        return got as usize;
    }
    DIFFERENCES
}

// A call of an operation: `got` is the number that it answered, `expected` the one that is due, and `rest` says whether its value and its
// bytes are the ones due.
pub fn compared(counts: &mut [u64], operation: usize, got: u8, expected: u8, rest: bool) {
    bump(counts, OPERATIONS + operation % 14);
    bump(counts, answer(got, expected, rest));
}

// Something else that was to be so, and counts where it was not.
pub fn expect(counts: &mut [u64], so: bool) {
    saw(counts, DIFFERENCES, !so);
}

// Sets n counters to 0.
pub(crate) fn clear(counts: &mut [u64], from: usize, n: usize) {
    for i in 0..n {
        clear_at(counts, plus(from, i));
    }
}

fn clear_at(counts: &mut [u64], i: usize) {
    if i < counts.len() {
        counts[i] = 0;
    }
}
