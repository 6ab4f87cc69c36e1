// The cases of compaction: generated vaults, their stores in another order, torn stores, pairs of faults in the small vault, a file longer than
// a join accepts.
use crate::plain::{early_code, put_compacted};
use crate::runs::{check_compacted, compact_runs, saw_code, saw_stores, search_both};
use tests_plain::bytes::{get_4, next, part};
use tests_plain::case;
use tests_plain::case::{check_code, first};
use tests_plain::forms::NEW;
use tests_plain::records::note_all;
use tests_report::report;
use tests_report::report::report_cases;
use tests_report::tally::expect;
use tests_vaults::encode::encode;
use tests_vaults::fill::{put_damaged, put_torn, settle_all};
use tests_vaults::make::make;
use tests_vaults::orders::reorder;
use tests_vaults::small::small;
use tests_vaults::{faults, long};
use tests_wide::longest;

// What is compacted: generated vaults, with their stores in another order, torn; the small vault with a pair of faults.
const AS_MADE: usize = 0;

const REORDERED: usize = 1;

const TORN: usize = 2;

const FAULTY: usize = 3;

// ---- a case

// A case that is accepted: compacted, compacted again, searched. g is the case with the new store.
fn run_both(counts: &mut [u64], f: &[u8], g: &[u8], buffer: &mut [u8]) {
    let r = case::recipes(f);
    let due = case::store(g);
    compact_runs(counts, case::store(f), r, due, 0, buffer);
    compact_runs(counts, due, r, due, 0, buffer);
    check_compacted(counts, f, g);
    search_both(counts, case::list(f), case::store(f), due, r, buffer);
    saw_stores(counts, f, g);
}

// A case that is refused, whatever the buffer.
fn run_refused(counts: &mut [u64], f: &[u8], code: u8, buffer: &mut [u8]) {
    compact_runs(
        counts,
        case::store(f),
        case::recipes(f),
        part(f, 0, 0),
        code,
        buffer,
    );
}

// A case; the number that is due before the test of the buffer. g takes the compacted store.
fn run_case(counts: &mut [u64], f: &[u8], g: &mut [u8]) -> u8 {
    let mut buffer = case::room();
    let code = early_code(case::store(f), case::recipes(f));
    saw_code(counts, code);
    if code == 0 {
        put_compacted(g, f);
        run_both(counts, f, g, &mut buffer);
        return 0;
    }
    run_refused(counts, f, code, &mut buffer);
    code
}

// ---- the cases by their numbers

// Vault number i, as a case.
fn put_vault(f: &mut [u8], i: usize) {
    let mut m = case::room();
    make(&mut m, i);
    note_all(&mut m);
    encode(f, NEW, &m);
}

// Vault number i with its store in another order; g takes the one before.
fn put_ordered(f: &mut [u8], g: &mut [u8], i: usize) {
    put_vault(g, i);
    let n = get_4(case::store(g), 4) % 16;
    reorder(f, g, i % 3, n, next((i % 1000000) as u64 + 3));
}

// The small vault with faults number t / 65 and t % 65.
fn put_faulty(f: &mut [u8], t: usize) {
    let mut m = case::room();
    small(&mut m);
    put_damaged(f, NEW, &m, t / faults::ALL, t % faults::ALL);
    settle_all(f, NEW, t / faults::ALL, t % faults::ALL);
}

fn put_case(way: usize, i: usize, f: &mut [u8], g: &mut [u8]) {
    if way == FAULTY {
        return put_faulty(f, i);
    }
    if way == REORDERED {
        return put_ordered(f, g, i);
    }
    put_vault(f, i);
    if way == TORN {
        put_torn(f, next((i % 1000000) as u64 + 5));
    }
}

// Faults tell the number that is due.
fn is_told(way: usize, f: &[u8], code: u8) -> bool {
    if way == FAULTY {
        return code == first(check_code(f, 1), check_code(f, 3));
    }
    true
}

// Case number i.
fn run_one(counts: &mut [u64], way: usize, i: usize) {
    let mut f = case::room();
    let mut g = case::room();
    put_case(way, i, &mut f, &mut g);
    let code = run_case(counts, &f, &mut g);
    expect(counts, is_told(way, &f, code));
}

fn run_all(counts: &mut [u64], way: usize, n: usize) {
    for i in 0..n {
        run_one(counts, way, i);
    }
}

// ---- a file longer than a join accepts

// The store has one chunk, of 65,535 bytes and named 65,538 times, and a hole of two bytes behind it.
fn run_long(counts: &mut [u64], store: &[u8], recipes: &[u8], buffer: &mut [u8]) {
    let s = part(store, 0, 65573);
    let due = part(store, 0, 65571);
    compact_runs(counts, s, recipes, due, 0, buffer);
    let code = search_both(counts, &longest::LIST, s, due, recipes, buffer) % 1000;
    expect(counts, code == 16);
    saw_code(counts, 0);
}

fn run_longest(counts: &mut [u64]) {
    let mut store = [0u8; 65580];
    let mut recipes = long::room();
    let mut buffer = case::room();
    longest::put_store(&mut store, 65535);
    long::put_long_recipes(&mut recipes, 65538, 0);
    run_long(counts, &store, part(&recipes, 0, 1310768), &mut buffer);
}

// ---- all of them

// n cases, under a name.
fn report_all(counts: &mut [u64], way: usize, n: usize, name: &[u8]) {
    run_all(counts, way, n);
    report_cases(name, counts);
    report::compactions(counts);
}

pub fn all_compactions(counts: &mut [u64]) {
    report_all(counts, AS_MADE, 1200, b"vaults compacted");
    report_all(
        counts,
        REORDERED,
        1200,
        b"stores in another order compacted",
    );
    report_all(counts, TORN, 1200, b"torn stores compacted");
    report_all(
        counts,
        FAULTY,
        4225,
        b"pairs of faults in the small vault compacted",
    );
    run_longest(counts);
    report_cases(
        b"stores of a file that a join refuses with 16 compacted",
        counts,
    );
    report::compacted(counts);
}
