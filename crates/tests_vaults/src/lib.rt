// The vaults that the tests run: generated from a seed, with small chunks, with long ones, with holes, torn, damaged, at the longest length, and
// their inputs in document 01's formats.
// Test support: proved safe and ending, with contracts only where a proof needs one.
#![tactic(auto)]

pub mod encode;
pub mod faults;
pub mod fill;
pub mod holes;
pub mod lanes;
pub mod long;
pub mod make;
pub mod orders;
pub mod small;
pub mod tiny;
