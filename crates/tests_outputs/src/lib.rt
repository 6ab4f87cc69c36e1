// The search program's output, run and compared with the text that is due.
// Test support: proved safe and ending.
#![tactic(auto)]

mod border;
mod outputs;
pub mod printed;
