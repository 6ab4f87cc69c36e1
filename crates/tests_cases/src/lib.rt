// The cases of vaults, run and counted: generated, torn, damaged, at the longest length.
// Test support: proved safe and ending.
#![tactic(auto)]

mod cases;
mod damaged;
pub mod limits;
pub mod vaults;
pub mod wide;
