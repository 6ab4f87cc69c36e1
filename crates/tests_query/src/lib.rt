// Queries of several keywords in order (request #109): of generated vaults under every mark, of damaged ones, and queries whose lines are told,
// beside the lines as they are plainly computed. Test support: proved safe and ending.
#![tactic(auto)]

pub mod cases;
mod plain;
mod runs;
