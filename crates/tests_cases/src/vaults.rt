// The cases of vaults, all of them: generated ones, torn stores, the small vault, pairs of faults in it.
use crate::{cases, damaged};
use tests_plain::case;
use tests_plain::forms::{NEW, OLD};
use tests_report::report;
use tests_report::report::{report_cases, report_kinds};
use tests_report::tally::expect;
use tests_vaults::{lanes, small};
use tests_wide::marks;

// What is run: generated vaults, made-up records, long chunks, vaults whose moves are told, torn stores.
const SCANNED: usize = 0;

const INVENTED: usize = 1;

const LONG: usize = 2;

const TOLD: usize = 3;

const TORN: usize = 4;

const PAIRS: usize = 4225;

// Case number i.
fn run_one(counts: &mut [u64], kind: usize, i: usize, f: &mut [u8], buffer: &mut [u8]) {
    if kind == SCANNED {
        return cases::scanned(counts, i, f, buffer);
    }
    if kind == INVENTED {
        return cases::invented(counts, i, f, buffer);
    }
    if kind == LONG {
        return cases::long(counts, i, f, buffer);
    }
    if kind == TOLD {
        return cases::with_told(counts, i, f, buffer);
    }
    cases::torn(counts, i, f, buffer)
}

// The first n cases.
fn run_all(counts: &mut [u64], kind: usize, n: usize, f: &mut [u8], buffer: &mut [u8]) {
    for i in 0..n {
        run_one(counts, kind, i, f, buffer);
    }
}

// Every two faults, and every fault alone, with the index under a mark.
fn run_faults(counts: &mut [u64], form: usize, m: &[u8], f: &mut [u8], buffer: &mut [u8]) {
    let n = PAIRS;
    for t in 0..n {
        damaged::pair(counts, form, t, m, f, buffer);
    }
}

// Indexes at the borders of the marks.
fn run_bordered(counts: &mut [u64], m: &mut [u8], f: &mut [u8], buffer: &mut [u8]) {
    let n = marks::ALL;
    for i in 0..n {
        cases::bordered(counts, i, m, f, buffer);
    }
}

fn generated(counts: &mut [u64], f: &mut [u8], buffer: &mut [u8]) {
    run_all(counts, SCANNED, 2400, f, buffer);
    report_cases(b"vaults scanned, joined and searched", counts);
    report_kinds(counts);
    run_all(counts, INVENTED, 1200, f, buffer);
    report_cases(
        b"indexes of made-up records joined, under every mark",
        counts,
    );
    report_kinds(counts);
}

fn walked(counts: &mut [u64], f: &mut [u8], buffer: &mut [u8]) {
    run_all(counts, LONG, lanes::ALL, f, buffer);
    report_cases(b"vaults of long chunks", counts);
    report::lanes(counts);
    run_all(counts, TOLD, small::TOLD, f, buffer);
    report_cases(b"vaults whose moves are told", counts);
}

fn torn(counts: &mut [u64], f: &mut [u8], buffer: &mut [u8]) {
    run_all(counts, TORN, 2400, f, buffer);
    report_cases(b"torn stores checked and scanned", counts);
    report::torn(counts);
}

// The small vault; m is left with it.
fn small(counts: &mut [u64], m: &mut [u8], f: &mut [u8], buffer: &mut [u8]) {
    small::small(m);
    cases::run_scanned(counts, 0, m, f, buffer);
    expect(counts, case::moves(f) == 10);
    report_cases(b"the small vault", counts);
}

// The same under every older mark.
fn run_older(counts: &mut [u64], m: &[u8], f: &mut [u8], buffer: &mut [u8]) {
    let end = NEW;
    for form in OLD..end {
        run_faults(counts, form, m, f, buffer);
    }
}

// The small vault with faults, its index under every mark; m is the small vault.
fn damaged_all(counts: &mut [u64], m: &[u8], f: &mut [u8], buffer: &mut [u8]) {
    run_faults(counts, NEW, m, f, buffer);
    report_cases(b"pairs of faults in it", counts);
    run_older(counts, m, f, buffer);
    report_cases(
        b"pairs of faults in it, its index under an older mark",
        counts,
    );
}

fn bordered_all(counts: &mut [u64], m: &mut [u8], f: &mut [u8], buffer: &mut [u8]) {
    run_bordered(counts, m, f, buffer);
    report_cases(b"indexes at the borders of the marks", counts);
}

fn faulty(counts: &mut [u64], f: &mut [u8], buffer: &mut [u8]) {
    let mut m = case::room();
    small(counts, &mut m, f, buffer);
    damaged_all(counts, &m, f, buffer);
    bordered_all(counts, &mut m, f, buffer);
}

fn all(counts: &mut [u64], f: &mut [u8], buffer: &mut [u8]) {
    generated(counts, f, buffer);
    walked(counts, f, buffer);
    torn(counts, f, buffer);
    faulty(counts, f, buffer);
}

pub fn all_vaults(counts: &mut [u64]) {
    let mut f = case::room();
    let mut buffer = case::room();
    all(counts, &mut f, &mut buffer);
}
