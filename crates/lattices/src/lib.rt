// The lattices Z and D, finders of points that are built on no other finder.
#![tactic(auto)]

mod cells;
pub mod lattice_d;
pub mod lattice_z;
pub mod laws;
