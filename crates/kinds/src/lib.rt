//! The lattices that a record names by a number, as one finder.
#![tactic(auto)]

pub mod lattice;
pub mod laws;
