// The operations on a case, all of them or those on its index.
use crate::lookups::lookups;
use crate::runs::{checks, join_runs, scan_runs, search_runs};
use tests_plain::forms::{NEW, OLD};
use tests_report::moves::put_moves;
use tests_report::tally;
use tests_report::tally::bump;
use tests_vaults::fill::{put_joined, put_scanned};

// Every operation on a case.
fn run_all(counts: &mut [u64], f: &[u8], n: usize, buffer: &mut [u8]) {
    run_index(counts, f, n, buffer);
    scan_runs(counts, f, buffer);
    search_runs(counts, f, buffer);
}

// The checks, the lookups and the join.
pub fn run_index(counts: &mut [u64], f: &[u8], n: usize, buffer: &mut [u8]) {
    checks(counts, f);
    lookups(counts, f, n);
    join_runs(counts, f, buffer);
}

// The vault in the model, searched, as case number n.
pub fn run_model(counts: &mut [u64], n: usize, m: &mut [u8], f: &mut [u8], buffer: &mut [u8]) {
    put_scanned(f, m, buffer);
    put_moves(f, m);
    run_all(counts, f, n, buffer);
    bump(counts, tally::CASES);
}

// The records in the model, joined under a mark; the plain join gives the list.
fn run_joined(
    counts: &mut [u64],
    form: usize,
    n: usize,
    m: &[u8],
    f: &mut [u8],
    buffer: &mut [u8],
) {
    put_joined(f, form, m);
    run_index(counts, f, n, buffer);
}

// The same under every mark; f is left with the case of the newest.
pub fn run_forms(counts: &mut [u64], n: usize, m: &[u8], f: &mut [u8], buffer: &mut [u8]) {
    let end = NEW + 1;
    for form in OLD..end {
        run_joined(counts, form, n, m, f, buffer);
    }
}
