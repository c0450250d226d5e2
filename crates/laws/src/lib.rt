#![tactic(auto)]
// What the proofs of every crate share: what it is that a contract fixes its answer, and laws of Boolean values. There is no code here.
