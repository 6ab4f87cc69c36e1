// What the tests count and print, and the comparison of what an operation answered with what was due.
// Test support: proved safe and ending.
#![tactic(auto)]

pub mod due;
pub mod holes;
pub mod kinds;
mod lanes;
pub mod moves;
pub mod report;
pub mod sets;
pub mod tally;
mod wide;
