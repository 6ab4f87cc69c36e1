// Answers on two cases as numbers, compared with each other.
use tests_plain::bytes::same;
use tests_report::tally;
use tests_report::tally::{bump, compared};

// The number answered and the two values told with it, as one number.
pub fn answer(code: u8, n: usize, count: usize) -> usize {
    code as usize + 1000 * (n % 1000000) + 1000000000 * (count % 1000000)
}

// No run: its buffer would be too long.
pub const NOT_RUN: usize = 999;

// An answer on g beside the one on f; `rest` says whether their bytes are the same.
pub fn paired(counts: &mut [u64], operation: usize, got: usize, expected: usize, rest: bool) {
    compared(
        counts,
        operation,
        (got % 1000 % 256) as u8,
        (expected % 1000 % 256) as u8,
        is_one(got, expected, rest),
    );
    bump(counts, tally::ANSWERS);
}

fn is_one(got: usize, expected: usize, rest: bool) -> bool {
    if got != expected {
        return false;
    }
    if got == NOT_RUN { false } else { rest }
}

pub fn same_bytes(a: &[u8], b: &[u8]) -> bool {
    if a.len() != b.len() {
        return false;
    }
    same(a, 0, b, 0, b.len())
}
