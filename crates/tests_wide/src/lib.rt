// The vaults of requests #105 and #106: chunks longer than a window of the scan's walk, a chunk of the longest length, stores told by their
// directories, indexes at the borders of the two marks.
// Test support: proved safe and ending.
#![tactic(auto)]

pub mod beyond;
pub mod longest;
pub mod marks;
pub mod wide;
