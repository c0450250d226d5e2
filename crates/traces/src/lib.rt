#![tactic(auto)]
// Traces as a whole: what recording gives, replay accepts, and a trace of what was live brings the same state back. The theorems are in proofs/; there is no
// code here.
