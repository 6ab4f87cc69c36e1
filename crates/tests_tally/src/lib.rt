// Joins with a key and a tally (request #110): of generated vaults, of damaged ones, with keys and tallies good and wrong, joins whose tallies are
// told, and lists of joins into one tally, beside the counts as they are plainly computed. Test support: proved safe and ending.
#![tactic(auto)]

pub mod cases;
mod draw;
mod plain;
mod runs;
