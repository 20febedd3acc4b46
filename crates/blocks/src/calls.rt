ghost use Rattle.std.specs.Prelude.{◌≡◌};
ghost use Rattle.blocks.specs.Calls.{padded};

use finders::points::MOST_CELLS;
use finders::refusals::Refusal;

/// A call that an open block takes.
#[derive(Debug, Clone, Copy, PartialEq, Eq)]
pub enum Call<'a> {
    /// One reading for each cell.
    Sense(&'a [i16]),
    /// Removes what stands.
    Clear,
    /// With the length of the place.
    Decide(usize),
}

/// A decided point, and its total.
#[derive(Debug, Clone, Copy, PartialEq, Eq)]
pub struct Decision {
    /// One number for each cell, and zeros behind them.
    pub point: [i32; MOST_CELLS],
    pub total: u64,
}

/// What a call was answered.
#[derive(Debug, Clone, Copy, PartialEq, Eq)]
pub enum Answer {
    /// How many senses stand.
    Sense(Result<u32, Refusal>),
    /// How many senses were removed.
    Clear(Result<u32, Refusal>),
    /// What was decided.
    Decide(Result<Decision, Refusal>),
}

// The numbers of a place as an answer has them: the first 32, with zeros behind them where there are fewer.
pub(super) fn padded(place: &[i32]) -> [i32; MOST_CELLS]
    ensures { result ≡ padded place.now }
{
    let mut point = [0; MOST_CELLS];
    let count = place.len().min(MOST_CELLS);
    point[..count].copy_from_slice(&place[..count]);
    point
}
