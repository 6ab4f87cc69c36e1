#![tactic(auto)]

// The trie of the keywords, for request #103: definitions and laws. It has no code yet; they stand in specs/ and proofs/.
