// The tasks that ask for a word of a code: their names, and what the words behind a name are answered.
#![tactic(auto)]

pub mod found;
pub mod lines;
pub mod names;
pub mod words;
