// Codes that are built on no other finder: finders of words.
#![tactic(auto)]

pub mod even_weight;
mod gains;
pub mod laws;
pub mod listed;
pub mod reed_muller;
mod shapes;
pub mod universe;
