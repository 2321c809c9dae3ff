// No code: that no line of a script writes more than the program has room for is a theorem about what `script` promises (proofs/).
#![tactic(auto)]
