/// A record of a stream. It begins with a mark of two bytes, and its fields follow.
#[derive(Debug, Clone, Copy, PartialEq, Eq)]
pub enum Record<'a> {
    /// A5 01: opens a block. One byte for the kind of its lattice, one for the number of cells, four for the step,
    /// unsigned.
    Open { kind: u8, cells: u8, step: u32 },
    /// A5 02: a sense. One byte for the number of cells, and two for the reading of each, signed. The record holds the
    /// bytes of the readings, lent from the input, and the place where they begin, counted from 0.
    Sense { place: usize, bytes: &'a [u8] },
    /// A5 03: removes the senses that stand.
    Clear,
    /// A5 04: decides.
    Decide,
}
