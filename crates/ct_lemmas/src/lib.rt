//! Lemmas on lists, options, Booleans and numbers that proofs of several crates cite. There is no code here.
#![tactic(auto)]
