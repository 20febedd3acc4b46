//! Streams of records: what a controller recorded of a group of cells, in bytes. Numbers of more than a byte are
//! big-endian.
#![tactic(auto)]

pub mod laws;
pub mod reader;
pub mod readings;
pub mod record;
