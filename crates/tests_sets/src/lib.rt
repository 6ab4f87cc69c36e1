// Vaults of small chunks, whose occurrences reach over three chunks or more, and bodies with sets of inner starts, good and damaged.
// Test support: proved safe and ending.
#![tactic(auto)]

pub mod cases;
mod make;
mod set_bodies;
