//! Callers of a block, written as a customer writes them. What each got is said in its contract, and follows from the
//! contracts of the block.
#![tactic(auto)]

pub mod any_finder;
pub mod any_run;
pub mod e8;
pub mod one_set;
pub mod piles;
pub mod worked;
