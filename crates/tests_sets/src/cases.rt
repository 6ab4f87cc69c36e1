// The cases of small chunks and of bodies with sets, run and counted.
use crate::{make, set_bodies};
use tests_plain::bytes::same;
use tests_plain::case;
use tests_plain::codes::recipes_code;
use tests_plain::forms::{NEW, OLD, SETS};
use tests_plain::joins::join_files;
use tests_report::kinds::see_sets;
use tests_report::report::report_cases;
use tests_report::tally::{bump, expect};
use tests_report::{report, tally};
use tests_runs::cases::{run_forms, run_index, run_model};
use tests_vaults::fill::put_joined;
use tests_vaults::make::{invent, make};
use tests_vaults::tiny::make_small;

// What is run: vaults of small chunks; the same with made-up records; vaults whose lists are told; made-up records joined by both rules.
const SCANNED: usize = 0;

const INVENTED: usize = 1;

const TOLD: usize = 2;

const RULES: usize = 3;

// ---- vaults

// The list of a case is also that of the plain join under a mark.
fn is_joined(m: &[u8], form: usize, f: &[u8]) -> bool {
    let mut g = case::room();
    if join_files(m, form, &mut g) != case::count(f) {
        return false;
    }
    let due = case::rows(f);
    same(&g, case::row_at(&g, 0), due, 0, due.len())
}

// The vault in the model, searched, its list by the direct search; then joined under every mark.
fn run_searched(counts: &mut [u64], i: usize, m: &mut [u8], f: &mut [u8], buffer: &mut [u8]) {
    run_model(counts, i, m, f, buffer);
    expect(counts, is_joined(m, SETS, f));
    see_sets(counts, m, f);
}

fn scanned(counts: &mut [u64], i: usize) {
    let mut m = case::room();
    let mut f = case::room();
    let mut buffer = case::room();
    make_small(&mut m, &mut buffer, i);
    run_searched(counts, i, &mut m, &mut f, &mut buffer);
    run_forms(counts, i, &m, &mut f, &mut buffer);
}

fn invented(counts: &mut [u64], i: usize) {
    let mut m = case::room();
    let mut f = case::room();
    let mut buffer = case::room();
    make_small(&mut m, &mut buffer, i);
    invent(&mut m, i);
    run_forms(counts, i, &m, &mut f, &mut buffer);
    see_sets(counts, &m, &f);
    bump(counts, tally::CASES);
}

// The older marks refuse it.
fn told(counts: &mut [u64], i: usize) {
    let mut m = case::room();
    let mut f = case::room();
    let mut buffer = case::room();
    make::put_told(&mut m, i);
    run_searched(counts, i, &mut m, &mut f, &mut buffer);
    expect(counts, make::is_told(&f, i));
    expect(counts, recipes_code(&m, OLD) == 17);
    run_forms(counts, i, &m, &mut f, &mut buffer);
}

// Both rules give one list where the older marks refuse nothing.
fn rules(counts: &mut [u64], i: usize) {
    let mut m = case::room();
    let mut f = case::room();
    make(&mut m, i);
    invent(&mut m, i);
    if recipes_code(&m, OLD) == 0 {
        put_joined(&mut f, OLD, &m);
        expect(counts, is_joined(&m, SETS, &f));
        bump(counts, tally::CASES);
    }
}

// Case number i.
fn run_one(counts: &mut [u64], kind: usize, i: usize) {
    if kind == SCANNED {
        return scanned(counts, i);
    }
    if kind == INVENTED {
        return invented(counts, i);
    }
    if kind == TOLD {
        return told(counts, i);
    }
    rules(counts, i)
}

fn run_all(counts: &mut [u64], kind: usize, n: usize) {
    for i in 0..n {
        run_one(counts, kind, i);
    }
}

// ---- bodies

fn run_body(counts: &mut [u64], form: usize, i: usize) {
    let mut f = case::room();
    let mut buffer = [0u8; 40];
    set_bodies::put_case(&mut f, form, i);
    run_index(counts, &f, i, &mut buffer);
    bump(counts, tally::BODIES + set_bodies::kind_of(form, i) % 15);
    bump(counts, tally::CASES);
}

fn run_bodies(counts: &mut [u64], form: usize) {
    let n = set_bodies::ALL;
    for i in 0..n {
        run_body(counts, form, i);
    }
}

// Under every mark.
fn all_bodies(counts: &mut [u64]) {
    let end = NEW + 1;
    for form in OLD..end {
        run_bodies(counts, form);
    }
}

// ---- all of them

fn all_scanned(counts: &mut [u64]) {
    run_all(counts, SCANNED, 480);
    report_cases(
        b"vaults of small chunks searched, and joined under every mark",
        counts,
    );
    report::sets(counts);
}

fn all_invented(counts: &mut [u64]) {
    run_all(counts, INVENTED, 480);
    report_cases(
        b"made-up records of small chunks joined under every mark",
        counts,
    );
    report::sets(counts);
}

fn all_told(counts: &mut [u64]) {
    run_all(counts, TOLD, make::TOLD);
    report_cases(b"vaults of small chunks whose lists are told", counts);
    run_all(counts, RULES, 1200);
    report_cases(b"made-up records joined by cells and by sets", counts);
}

fn report_bodies(counts: &mut [u64]) {
    all_bodies(counts);
    report_cases(b"bodies of small chunks under every mark", counts);
    report::bodies(counts);
}

pub fn all_sets(counts: &mut [u64]) {
    all_scanned(counts);
    all_invented(counts);
    all_told(counts);
    report_bodies(counts);
}
