// The definitions in specs/ and the laws in proofs/ are what this crate is for: it has no code.
#![tactic(auto)]
