//! The block: it adds the senses of a group of cells, and decides a point of least total over any finder of points.
#![tactic(auto)]

pub mod block;
pub mod calls;
pub mod laws;
mod opened;
pub mod runs;
mod tally;
