// Lattices that are built on others: each layer is a finder of points that holds what is below it, any finder of words or of points.
#![tactic(auto)]

pub mod construction_a;
pub mod e8;
pub mod glue;
pub mod join;
pub mod laws;
pub mod scale;
