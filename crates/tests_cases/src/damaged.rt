// The small vault of document 01 with every pair of faults.
use tests_plain::forms::NEW;
use tests_report::tally;
use tests_report::tally::bump;
use tests_runs::runs::{checks, join_runs, scan_runs, search_runs};
use tests_vaults::faults::ALL;
use tests_vaults::fill::{put_damaged, settle_all};

// A scan writes no index under an older mark.
fn run_damaged(counts: &mut [u64], form: usize, f: &[u8], buffer: &mut [u8]) {
    checks(counts, f);
    join_runs(counts, f, buffer);
    if form == NEW {
        scan_runs(counts, f, buffer);
        search_runs(counts, f, buffer);
    }
}

// Every operation that faults number t / 65 and t % 65 make refuse, and the checks; m is the small vault, and its index is under a mark.
pub(crate) fn pair(
    counts: &mut [u64],
    form: usize,
    t: usize,
    m: &[u8],
    f: &mut [u8],
    buffer: &mut [u8],
) {
    put_damaged(f, form, m, t / ALL, t % ALL);
    settle_all(f, form, t / ALL, t % ALL);
    run_damaged(counts, form, f, buffer);
    bump(counts, tally::CASES);
}
