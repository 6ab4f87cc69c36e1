// The library's operations run on two stores with the same chunks, in another order or with other holes, and what they answer compared.
// Test support: proved safe and ending.
#![tactic(auto)]

mod holes;
pub mod orders;
mod pairs;
