#![tactic(auto)]
// How candidates, ranked lists, data sets and what the sender records answer lie in words that a host written in C lends: into words, and out
// of them. No word is cut: `fits` tells the words that a field cannot hold, and the calls of `dzervolat` refuse them with 18, after all that
// the engine refuses.
//
// Nothing is decided here: those calls unpack words, ask the engine, and pack its answer.
pub mod answers;
pub mod candidates;
pub mod fits;
pub mod places;
