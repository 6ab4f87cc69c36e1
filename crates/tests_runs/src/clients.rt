// Keys and tallies of clients (request #110) for joins and searches: one client and a tally at zero, where the tally is not what is tested; one
// key and one tally for the two that are compared with each other.
use crate::answers::paired;
use crate::runs::value_of;
use join::Joined;
use search::Answer;
use spec::Tally;
use tests_report::due::as_due;
use tests_report::tally;
use tests_report::tally::saw;

// Each client's count at zero.
pub fn no_counts() -> Tally {
    one_count(0)
}

// The first client's count; the others' at zero.
fn one_count(n: u64) -> Tally {
    Tally {
        client0: n,
        client1: 0,
        client2: 0,
        client3: 0,
    }
}

// ---- one client

pub fn join_for_one(index: &[u8], recipes: &[u8], out: &mut [u8]) -> Joined {
    let key = [0u8; 16];
    join::tallied(index, recipes, &key, out, no_counts())
}

pub fn search_for_one(
    list: &[u8],
    store: &[u8],
    recipes: &[u8],
    index: &mut [u8],
    out: &mut [u8],
) -> Answer {
    let key = [0u8; 16];
    search::search(list, store, recipes, &key, index, out, no_counts())
}

// The tally after a join for one client that lists n occurrences, or after one that is refused.
pub fn count_for_one(code: u8, n: usize) -> Tally {
    if code != 0 {
        return no_counts();
    }
    one_count(n as u64)
}

// A join's count, list and tally, where it must answer `code`.
pub fn joined_as_due(j: Joined, code: u8, tally: Tally, buffer: &[u8], due: &[u8]) -> bool {
    let o = j.outcome;
    if j.tally == tally {
        return as_due(value_of(o), code, due.len() / 9, buffer, due);
    }
    false
}

// ---- two that are compared

// Each keyword's client, not that of the keywords beside it.
const KEY: [u8; 16] = *b"\x00\x01\x02\x03\x02\x00\x03\x01\x03\x02\x01\x00\x01\x03\x00\x02";

// The counts before: none is zero, and they differ.
fn some_counts() -> Tally {
    Tally {
        client0: 7,
        client1: 4294967290,
        client2: 65536,
        client3: 9223372036854775800,
    }
}

pub fn join_for_pair(index: &[u8], recipes: &[u8], out: &mut [u8]) -> Joined {
    join::tallied(index, recipes, &KEY, out, some_counts())
}

pub fn search_for_pair(
    list: &[u8],
    store: &[u8],
    recipes: &[u8],
    index: &mut [u8],
    out: &mut [u8],
) -> Answer {
    search::search(list, store, recipes, &KEY, index, out, some_counts())
}

// An answer, and the tally after it.
#[derive(Clone, Copy)]
pub struct Counted {
    pub answer: usize,
    pub tally: Tally,
}

// An answer of an operation that has no tally.
pub fn uncounted(answer: usize) -> Counted {
    Counted {
        answer: answer,
        tally: some_counts(),
    }
}

// Their tallies are the same, and the rest.
fn is_same(got: Counted, expected: Counted, rest: bool) -> bool {
    if got.tally == expected.tally {
        return rest;
    }
    false
}

// An answer on g beside the one on f, with their tallies.
pub fn paired_counts(
    counts: &mut [u64],
    operation: usize,
    got: Counted,
    expected: Counted,
    rest: bool,
) {
    let ok = is_same(got, expected, rest);
    let changed = expected.tally != some_counts();
    paired(counts, operation, got.answer, expected.answer, ok);
    saw(counts, tally::TALLIES, changed);
}
