ghost use Rattle.std.specs.Prelude.{◌≡◌, Some};
ghost use Rattle.finders.specs.Refusals.{number_of, refusal_text};

use std::error::Error;
use std::fmt;

// Why a call is refused.
#[derive(Clone, Copy, PartialEq, Eq, Debug)]
pub enum Refusal {
    // a width is not 1 to 32, or the m of a Reed-Muller code is not 1 to 5
    Width = 1,
    // a list, row or place has not as many numbers as asked
    Length = 2,
    // a gain, reading or coordinate is larger in size than its limit
    Magnitude = 3,
    // a step is below 1 or above its limit
    Step = 4,
    // too many glue words or rows
    GlueCount = 5,
    // a word has a digit beyond the width, or a row number is larger than 1024 in size
    Entry = 6,
    // a limit is used up
    Exhausted = 7,
    // a repeat or scale factor is out of its range
    Factor = 8,
    // a listed code has no word or more than 64
    WordCount = 9,
    // a block cannot take 64 senses at this step
    Depth = 10,
    // a block is full
    Full = 11,
    // no sense stands
    Empty = 12,
    // no open block
    Closed = 13,
    // an unknown kind
    Kind = 14,
}

// The number that stands for a refusal wherever it is written.
impl From<Refusal> for u8 {
    ghost from_gives = { λ refusal number. number ≡ number_of refusal };

    fn from(refusal: Refusal) -> u8 {
        refusal as u8
    }
}

impl fmt::Display for Refusal {
    ghost output = { λ refusal. Some (refusal_text refusal) };

    fn fmt<W: fmt::Write>(&self, f: &mut fmt::Formatter<W>) -> fmt::Result {
        write!(f, "refused {}", u8::from(*self))
    }
}

impl Error for Refusal {}
