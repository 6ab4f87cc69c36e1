// Compaction (request #107) of generated, torn and damaged vaults: beside the compacted store as it is plainly computed, and searched beside the
// store that it was made of. Test support: proved safe and ending.
#![tactic(auto)]

pub mod cases;
mod plain;
mod runs;
