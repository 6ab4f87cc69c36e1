// Compactions of a case, each compared with what is due: the number, the length, every byte of the buffer. Buffers are filled with a pattern
// first; a longer one, an exact one and one a byte short are tried.
use crate::plain::places;
use spec::Refusal;
use tests_plain::bytes::{get_4, less, part, plus, repeat};
use tests_plain::case;
use tests_report::due::{PATTERN, as_due, late, value_as_due};
use tests_report::holes::has_hole;
use tests_report::tally;
use tests_report::tally::{bump, compared, expect, saw};
use tests_runs::answers::{answer, same_bytes};
use tests_runs::clients::{Counted, paired_counts, search_for_pair};
use tests_runs::runs::{code_of, searched_code, searched_count, value_of};

// ---- calls

// 0 where the buffer is longer, 1 where it is exact, 2 where it is a byte short, 3 where another number than 9 is due.
fn buffer_kind(code: u8, n: usize, room: usize) -> usize {
    if code == 9 {
        return 2;
    }
    if code != 0 {
        return 3;
    }
    (room == n) as usize
}

// Into the first `room` bytes of the buffer. The refusal where the buffer is shorter is none of a compaction's.
fn compact_front(s: &[u8], r: &[u8], buffer: &mut [u8], room: usize) -> Result<usize, Refusal> {
    if room <= buffer.len() {
        return compact::compact(s, r, &mut buffer[..room]);
    }
    Err(Refusal::FileNumberWrong)
}

// Where `early` is due before the test of the buffer.
fn compact_into(
    counts: &mut [u64],
    s: &[u8],
    r: &[u8],
    due: &[u8],
    early: u8,
    buffer: &mut [u8],
    room: usize,
) {
    repeat(buffer, 0, room, PATTERN);
    let code = late(early, due.len(), room, 9);
    let o = compact_front(s, r, buffer, room);
    let ok = as_due(value_of(o), code, due.len(), part(buffer, 0, room), due);
    compared(counts, tally::COMPACTION, code_of(o), code, ok);
    bump(
        counts,
        tally::COMPACTION_BUFFERS + buffer_kind(code, due.len(), room) % 4,
    );
}

// Store and recipes, where a new store is due, or a number before the test of the buffer.
pub(crate) fn compact_runs(
    counts: &mut [u64],
    s: &[u8],
    r: &[u8],
    due: &[u8],
    early: u8,
    buffer: &mut [u8],
) {
    let o = compact::size(s, r);
    let ok = value_as_due(value_of(o), early, due.len());
    compared(counts, tally::COMPACTION_SIZE, code_of(o), early, ok);
    compact_into(counts, s, r, due, early, buffer, plus(due.len(), 40));
    compact_into(counts, s, r, due, early, buffer, due.len());
    compact_into(counts, s, r, due, early, buffer, less(due.len(), 1));
}

// ---- two stores, searched

// Number, count and tally of a search of recipes.
fn search_one(list: &[u8], s: &[u8], r: &[u8], index: &mut [u8], buffer: &mut [u8]) -> Counted {
    let a = search_for_pair(list, s, r, index, buffer);
    let found = a.searched;
    let counts = a.tally;
    Counted {
        answer: answer(searched_code(found), 0, searched_count(found)),
        tally: counts,
    }
}

// By what a search answered: occurrences, none, refused by the scan, by the join.
fn pair_kind(answer: usize) -> usize {
    let code = answer % 1000;
    if code == 0 {
        return (answer == 0) as usize;
    }
    if code < 10 { 2 } else { 3 }
}

// 16 or 17.
fn is_of_files(answer: usize) -> bool {
    answer % 1000 / 2 == 8
}

fn saw_search(counts: &mut [u64], answer: usize) {
    bump(counts, tally::PAIRS + pair_kind(answer) % 4);
    saw(counts, tally::COMPACTION_KINDS + 5, is_of_files(answer));
}

// The searches of a store and of the compacted one; the answer of the first. The index buffer is long enough for either; the list buffers have
// one length, and the tallies are equal before.
pub(crate) fn search_both(
    counts: &mut [u64],
    list: &[u8],
    s: &[u8],
    due: &[u8],
    r: &[u8],
    index: &mut [u8],
) -> usize {
    let mut a = [PATTERN; 6000];
    let mut b = [PATTERN; 6000];
    let expected = search_one(list, s, r, index, &mut a);
    let got = search_one(list, due, r, index, &mut b);
    paired_counts(counts, tally::SEARCH, got, expected, same_bytes(&a, &b));
    saw_search(counts, expected.answer);
    expected.answer
}

// ---- what was seen

// The counter of a number.
fn place_of(code: u8) -> usize {
    if code == 0 {
        return 0;
    }
    if code == 20 {
        return 5;
    }
    if code < 14 {
        less(code as usize, 4)
    } else {
        less(code as usize, 8)
    }
}

pub(crate) fn saw_code(counts: &mut [u64], code: u8) {
    bump(counts, tally::COMPACTED + place_of(code) % 8);
    bump(counts, tally::CASES);
}

fn saw_named(counts: &mut [u64], named: usize, kept: usize) {
    saw(counts, tally::COMPACTION_KINDS + 3, kept < named);
    saw(counts, tally::COMPACTION_KINDS + 4, named == 0);
}

// A case f and the compacted store of g.
pub(crate) fn saw_stores(counts: &mut [u64], f: &[u8], g: &[u8]) {
    let r = case::recipes(f);
    let before = get_4(case::store(f), 4);
    let kept = get_4(case::store(g), 4);
    let alike = same_bytes(case::store(f), case::store(g));
    saw(counts, tally::COMPACTION_KINDS, kept < before);
    saw(counts, tally::COMPACTION_KINDS + 1, has_hole(f));
    saw(counts, tally::COMPACTION_KINDS + 2, alike);
    saw_named(counts, places(r, get_4(r, 0)), kept);
}

// The compacted store is accepted, has no hole and is not longer.
pub(crate) fn check_compacted(counts: &mut [u64], f: &[u8], g: &[u8]) {
    let code = store::check(case::store(g));
    compared(counts, tally::STORE_CHECK, code_of(code), 0, !has_hole(g));
    expect(counts, case::length_of(g, 1) <= case::length_of(f, 1));
}
