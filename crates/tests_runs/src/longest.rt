// A chunk of the longest length, 1,048,576 bytes: checked, looked up, scanned, joined; and a chunk a byte longer, refused.
use crate::clients::{count_for_one, join_for_one, joined_as_due};
use crate::runs::{code_of, scanned_length, scanned_moves, value_of};
use join::Joined;
use spec::{Refusal, ScanDone};
use tests_plain::bytes::{fill, part};
use tests_report::due::{PATTERN, as_due, moves_as_due, value_as_due};
use tests_report::tally;
use tests_report::tally::{bump, compared};
use tests_vaults::encode::put_key;
use tests_wide::longest;

// ---- the scan

fn size_run(counts: &mut [u64], store: &[u8], code: u8) {
    let o = scan::size(&longest::LIST, store);
    let ok = value_as_due(value_of(o), code, longest::INDEX_LENGTH);
    compared(counts, tally::SIZE, code_of(o), code, ok);
}

fn scan_as_due(s: Result<ScanDone, Refusal>, code: u8, buffer: &[u8], index: &[u8]) -> bool {
    if moves_as_due(scanned_moves(s), code, longest::MOVES) {
        return as_due(
            scanned_length(s),
            code,
            longest::INDEX_LENGTH,
            buffer,
            index,
        );
    }
    false
}

fn scan_into(counts: &mut [u64], store: &[u8], index: &[u8], buffer: &mut [u8], code: u8) {
    fill(buffer, PATTERN);
    let s = scan::scan(&longest::LIST, store, buffer);
    let ok = scan_as_due(s, code, buffer, index);
    compared(counts, tally::SCAN, code_of(s), code, ok);
}

// Into an exact buffer, and one a byte short.
fn scan_runs(counts: &mut [u64], store: &[u8], index: &[u8], code: u8, late: u8) {
    let mut exact = [0u8; 70];
    let mut short = [0u8; 69];
    scan_into(counts, store, index, &mut exact, code);
    scan_into(counts, store, index, &mut short, late);
}

// ---- store and lookup

fn check_run(counts: &mut [u64], store: &[u8], code: u8) {
    compared(
        counts,
        tally::STORE_CHECK,
        code_of(store::check(store)),
        code,
        true,
    );
}

fn lookup_run(counts: &mut [u64], store: &[u8], code: u8) {
    let mut key = [0u8; 20];
    put_key(&mut key, 0, 0);
    let ok = value_as_due(store::chunk_length(store, &key), code, longest::SIZE);
    compared(
        counts,
        tally::CHUNK_LOOKUP,
        code_of(store::find_chunk(store, &key)),
        code,
        ok,
    );
}

fn store_runs(counts: &mut [u64], store: &[u8], index: &[u8], code: u8, late: u8) {
    check_run(counts, store, code);
    lookup_run(counts, store, code);
    size_run(counts, store, code);
    scan_runs(counts, store, index, code, late);
    bump(counts, tally::CASES);
}

// ---- the join

fn join_as_due(j: Joined, buffer: &[u8]) -> bool {
    let mut list = [0u8; 108];
    longest::put_list(&mut list);
    joined_as_due(j, 0, count_for_one(0, longest::ROWS), buffer, &list)
}

fn join_run(counts: &mut [u64], index: &[u8]) {
    let mut recipes = [0u8; 48];
    let mut buffer = [PATTERN; 110];
    longest::put_recipes(&mut recipes);
    let j = join_for_one(index, &recipes, &mut buffer);
    let o = j.outcome;
    let ok = join_as_due(j, &buffer);
    compared(counts, tally::JOIN, code_of(o), 0, ok);
    compared(
        counts,
        tally::INDEX_CHECK,
        code_of(index::check(index)),
        0,
        true,
    );
}

// All of them; the store goes to an array.
pub fn longest_chunk(counts: &mut [u64], store: &mut [u8]) {
    let mut index = [0u8; longest::INDEX_LENGTH];
    longest::put_index(&mut index);
    longest::put_store(store, longest::SIZE);
    store_runs(counts, part(store, 0, longest::SIZE + 36), &index, 0, 9);
    longest::put_store(store, longest::SIZE + 1);
    store_runs(counts, part(store, 0, longest::SIZE + 37), &index, 7, 7);
    join_run(counts, &index);
}
