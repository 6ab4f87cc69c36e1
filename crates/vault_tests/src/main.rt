// Generated vaults and damaged inputs, run through the library and compared with plain computations; stores in another order or with other
// holes, compared with the first ones. What it prints says how many cases of each kind it ran, how many calls of each operation it compared, which numbers they
// answered, and how often something was not as expected: never.
#![tactic(auto)]

use tests_cases::{limits, vaults, wide};
use tests_compact::cases;
use tests_outputs::printed;
use tests_pairs::orders;
use tests_query::cases as queries;
use tests_report::{report, tally};
use tests_sets::cases as sets;
use tests_tally::cases as tallies;

fn main() {
    let mut counts = [0u64; tally::ALL];
    vaults::all_vaults(&mut counts);
    sets::all_sets(&mut counts);
    orders::all_pairs(&mut counts);
    limits::longest(&mut counts);
    wide::all_wide(&mut counts);
    printed::all_outputs(&mut counts);
    cases::all_compactions(&mut counts);
    queries::all_queries(&mut counts);
    tallies::all_tallies(&mut counts);
    report::totals(&counts);
}
