// No code: what a message does to the panel that it is for, said once for the three protocols (specs/), and its laws (proofs/).
#![tactic(auto)]
