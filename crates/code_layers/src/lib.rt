// Codes that are built on others: each layer is a finder of words that holds what is below it, any finder of words.
#![tactic(auto)]

pub mod glue;
pub mod join;
pub mod laws;
pub mod repeat;
pub mod shorten;
