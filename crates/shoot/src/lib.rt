//! Lemmas for the program that judges a shot by rules that it reads, and no function yet: what a run comes to that takes all
//! records after each tick, how it ends, and what rows answer to the samples of a table. Read `proofs/Emptied.antt` first.
#![tactic(auto)]
