// The library's operations run on a case and compared with what was due.
// Test support: proved safe and ending.
#![tactic(auto)]

pub mod answers;
pub mod cases;
pub mod clients;
pub mod longest;
pub mod lookups;
pub mod runs;
