#![tactic(auto)]

// The theorems on the definitions of crate `spec`. It has no code; they stand in proofs/.
