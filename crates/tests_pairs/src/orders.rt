// Vaults whose stores are written again, with their chunks in another order or with other holes.
use crate::holes::run_holes;
use crate::pairs::{checks_both, lookups_both, runs_both, saw_orders, scan_index};
use tests_plain::bytes::{get_4, next, plus};
use tests_plain::case;
use tests_report::moves::put_moves;
use tests_report::report;
use tests_report::report::report_cases;
use tests_vaults::fill::put_scanned;
use tests_vaults::make::make;
use tests_vaults::orders::{REVERSED, ROTATED, SHUFFLED, reorder};

// How the stores are written again.
const ORDERS: usize = 0;

const HOLES: usize = 1;

// Every operation on both, once g's index is what the scan of its store writes.
pub(crate) fn run_pair(counts: &mut [u64], f: &[u8], g: &mut [u8], a: &mut [u8], b: &mut [u8]) {
    scan_index(g, b);
    checks_both(counts, f, g);
    runs_both(counts, f, g, a, b);
    lookups_both(counts, f, g);
}

// Case number j: f's store in the order number j % 3.
fn run_order(counts: &mut [u64], j: usize, f: &[u8], g: &mut [u8], a: &mut [u8], b: &mut [u8]) {
    let n = get_4(case::store(f), 4) % 16;
    reorder(g, f, j % 3, n, next((j % 1000000) as u64 + 3));
    run_pair(counts, f, g, a, b);
    saw_orders(counts, f, g);
}

fn run_orders(counts: &mut [u64], i: usize, f: &[u8], g: &mut [u8], a: &mut [u8], b: &mut [u8]) {
    let j = 3 * (i % 1000000);
    run_order(counts, plus(j, REVERSED), f, g, a, b);
    run_order(counts, plus(j, ROTATED), f, g, a, b);
    run_order(counts, plus(j, SHUFFLED), f, g, a, b);
}

// Vault number i, as a model and as a case.
fn put_vault(i: usize, m: &mut [u8], f: &mut [u8], buffer: &mut [u8]) {
    make(m, i);
    put_scanned(f, m, buffer);
    put_moves(f, m);
}

// Vault number i.
fn run_vault(
    counts: &mut [u64],
    way: usize,
    i: usize,
    f: &mut [u8],
    g: &mut [u8],
    a: &mut [u8],
    b: &mut [u8],
) {
    let mut m = case::room();
    put_vault(i, &mut m, f, a);
    if way == ORDERS {
        return run_orders(counts, i, f, g, a, b);
    }
    run_holes(counts, i, &mut m, f, g, a, b)
}

fn run_vaults(
    counts: &mut [u64],
    way: usize,
    n: usize,
    f: &mut [u8],
    g: &mut [u8],
    a: &mut [u8],
    b: &mut [u8],
) {
    for i in 0..n {
        run_vault(counts, way, i, f, g, a, b);
    }
}

fn run_both(counts: &mut [u64], f: &mut [u8], g: &mut [u8], a: &mut [u8], b: &mut [u8]) {
    run_vaults(counts, ORDERS, 1200, f, g, a, b);
    report_cases(b"stores in another order", counts);
    report::orders(counts);
    run_vaults(counts, HOLES, 800, f, g, a, b);
    report_cases(b"stores with other holes", counts);
    report::other_holes(counts);
}

fn run_in(counts: &mut [u64], f: &mut [u8], g: &mut [u8]) {
    let mut a = case::room();
    let mut b = case::room();
    run_both(counts, f, g, &mut a, &mut b);
}

pub fn all_pairs(counts: &mut [u64]) {
    let mut f = case::room();
    let mut g = case::room();
    run_in(counts, &mut f, &mut g);
}
