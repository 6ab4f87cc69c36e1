// The cases: generated vaults scanned, joined and searched; joins of made-up records; torn stores.
use tests_plain::bytes::next;
use tests_plain::case;
use tests_plain::case::check_code;
use tests_plain::forms::NEW;
use tests_plain::records::note_all;
use tests_report::kinds::{see, see_holes, see_lanes};
use tests_report::moves::put_moves;
use tests_report::tally;
use tests_report::tally::{bump, expect, store_place};
use tests_runs::cases::{run_forms, run_index, run_model};
use tests_runs::lookups::lookups;
use tests_runs::runs::{checks, scan_runs};
use tests_vaults::encode::encode;
use tests_vaults::fill::put_torn;
use tests_vaults::lanes::make_long;
use tests_vaults::make::{invent, make};
use tests_vaults::small::{told, told_moves};
use tests_wide::marks::put_bordered;

// The vault in the model, searched, as case number n, with its kinds.
pub(crate) fn run_scanned(
    counts: &mut [u64],
    n: usize,
    m: &mut [u8],
    f: &mut [u8],
    buffer: &mut [u8],
) {
    run_model(counts, n, m, f, buffer);
    see(counts, m, f);
}

// Vault number n with long chunks, searched.
pub(crate) fn long(counts: &mut [u64], n: usize, f: &mut [u8], buffer: &mut [u8]) {
    let mut m = case::room();
    make_long(&mut m, n);
    run_model(counts, n, &mut m, f, buffer);
    see_lanes(counts, &m, f);
}

// Vault number n of those whose moves are told.
pub(crate) fn with_told(counts: &mut [u64], n: usize, f: &mut [u8], buffer: &mut [u8]) {
    let mut m = case::room();
    told(&mut m, n);
    run_model(counts, n, &mut m, f, buffer);
    expect(counts, case::moves(f) == told_moves(n));
}

// Vault number n, searched.
pub(crate) fn scanned(counts: &mut [u64], n: usize, f: &mut [u8], buffer: &mut [u8]) {
    let mut m = case::room();
    make(&mut m, n);
    run_scanned(counts, n, &mut m, f, buffer);
}

// Vault number n with made-up records, joined under every mark.
pub(crate) fn invented(counts: &mut [u64], n: usize, f: &mut [u8], buffer: &mut [u8]) {
    let mut m = case::room();
    make(&mut m, n);
    invent(&mut m, n);
    run_forms(counts, n, &m, f, buffer);
    see(counts, &m, f);
    bump(counts, tally::CASES);
}

// A store, torn: checked, searched for chunks and, where it is refused, scanned.
fn run_torn(counts: &mut [u64], f: &[u8], n: usize, buffer: &mut [u8]) {
    checks(counts, f);
    lookups(counts, f, n);
    scan_runs(counts, f, buffer);
    bump(counts, store_place(check_code(f, 1)));
    bump(counts, tally::CASES);
}

// The holes of a store that is accepted.
fn see_accepted(counts: &mut [u64], m: &[u8], f: &[u8]) {
    if check_code(f, 1) == 0 {
        see_holes(counts, m, f);
    }
}

// The store of vault number n, torn.
pub(crate) fn torn(counts: &mut [u64], n: usize, f: &mut [u8], buffer: &mut [u8]) {
    let mut m = case::room();
    make(&mut m, n);
    note_all(&mut m);
    encode(f, NEW, &m);
    put_torn(f, next((n % 1000000) as u64 + 5));
    run_torn(counts, f, n, buffer);
    see_accepted(counts, &m, f);
}

// Index number n at the borders of the marks; m is the small vault.
pub(crate) fn bordered(
    counts: &mut [u64],
    n: usize,
    m: &mut [u8],
    f: &mut [u8],
    buffer: &mut [u8],
) {
    put_bordered(f, m, n);
    run_index(counts, f, n, buffer);
    bump(counts, tally::CASES);
}
