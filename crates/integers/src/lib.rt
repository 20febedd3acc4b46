// Lemmas on whole numbers for the crates above: this crate has definitions (specs/) and proofs (proofs/), and no code.
#![tactic(auto)]
