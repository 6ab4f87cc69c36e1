// The cases of requests #105 and #106: chunks longer than a window of the scan's walk; stores told by their directories, some of which reach
// beyond 4,294,967,295; a chunk of the longest length.
use tests_plain::case::check_code;
use tests_plain::{case, model};
use tests_report::kinds::see_wide;
use tests_report::moves::put_moves;
use tests_report::report::report_cases;
use tests_report::tally::{bump, expect, store_place};
use tests_report::{report, tally};
use tests_runs::longest::longest_chunk;
use tests_runs::lookups::lookups;
use tests_runs::runs::{checks, join_runs, scan_runs, search_long, search_runs};
use tests_vaults::fill::put_scanned;
use tests_vaults::long;
use tests_vaults::small::small;
use tests_wide::{beyond, wide};

// ---- chunks longer than a window

// Every operation on a case of a long chunk.
fn run_all(counts: &mut [u64], f: &[u8], n: usize, buffer: &mut [u8]) {
    let mut index = model::long_room();
    checks(counts, f);
    lookups(counts, f, n);
    scan_runs(counts, f, buffer);
    join_runs(counts, f, buffer);
    search_long(counts, f, &mut index, buffer);
    bump(counts, tally::CASES);
}

// Vault number n, searched.
fn run_wide(counts: &mut [u64], n: usize, f: &mut [u8], buffer: &mut [u8]) {
    let mut m = model::long_room();
    wide::make_wide(&mut m, n);
    put_scanned(f, &mut m, buffer);
    put_moves(f, &m);
    see_wide(counts, &m, f);
    run_all(counts, f, n, buffer);
}

fn run_wides(counts: &mut [u64], f: &mut [u8], buffer: &mut [u8]) {
    let n = wide::ALL;
    for i in 0..n {
        run_wide(counts, i, f, buffer);
    }
}

// ---- stores told by their directories

// A store, checked, searched for chunks, scanned and searched.
fn run_store(counts: &mut [u64], f: &[u8], n: usize, buffer: &mut [u8]) {
    checks(counts, f);
    lookups(counts, f, n);
    scan_runs(counts, f, buffer);
    search_runs(counts, f, buffer);
}

fn saw_store(counts: &mut [u64], code: u8, told: u8) {
    expect(counts, code == told);
    bump(counts, store_place(code));
    bump(counts, tally::CASES);
}

// Store number n.
fn run_beyond(counts: &mut [u64], n: usize, f: &mut [u8], buffer: &mut [u8]) {
    beyond::put_beyond(f, n);
    run_store(counts, f, n, buffer);
    saw_store(counts, check_code(f, 1), beyond::told_code(n));
}

fn run_beyonds(counts: &mut [u64], f: &mut [u8], buffer: &mut [u8]) {
    let n = beyond::ALL;
    for i in 0..n {
        run_beyond(counts, i, f, buffer);
    }
}

// The other inputs are the small vault's.
fn put_small(f: &mut [u8], buffer: &mut [u8]) {
    let mut m = case::room();
    small(&mut m);
    put_scanned(f, &mut m, buffer);
}

// ---- all of them

fn wides(counts: &mut [u64], f: &mut [u8], buffer: &mut [u8]) {
    run_wides(counts, f, buffer);
    report_cases(b"vaults of a chunk of 65,535 bytes or more", counts);
    report::wide(counts);
}

fn beyonds(counts: &mut [u64], f: &mut [u8], buffer: &mut [u8]) {
    put_small(f, buffer);
    run_beyonds(counts, f, buffer);
    report_cases(b"stores told by their directories", counts);
    report::stores(counts);
}

fn longest(counts: &mut [u64], buffer: &mut [u8]) {
    longest_chunk(counts, buffer);
    report_cases(
        b"stores of a chunk of 1,048,576 bytes, of 1,048,577",
        counts,
    );
}

fn run_in(counts: &mut [u64], f: &mut [u8], buffer: &mut [u8]) {
    wides(counts, f, buffer);
    beyonds(counts, f, buffer);
    longest(counts, buffer);
}

pub fn all_wide(counts: &mut [u64]) {
    let mut f = case::long_room();
    let mut buffer = long::room();
    run_in(counts, &mut f, &mut buffer);
}
