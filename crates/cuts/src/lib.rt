// No code: that the bytes of a TCP link may be cut anywhere is a theorem about the receiver and the step (specs/ and proofs/).
#![tactic(auto)]
