// No code: the step of a box, and the demands on it, are definitions and theorems (specs/ and proofs/). The ways in promise this step.
#![tactic(auto)]
