ghost use Rattle.std.specs.Prelude.{◌≡◌, ◌^◌, ◌≤◌, true, length, take};
ghost use Rattle.finders.specs.Points.{within};
ghost use Rattle.finders.specs.Words.{signed as signed_of, correlation as correlation_of};
ghost use Rattle.codes.specs.Digits.{word as word_of};
ghost use Rattle.codes.specs.Universe.{signs as signs_of};

use finders::points::MOST_CELLS;
use std::array;

// Gains that a code has granted a find of: so few and so small that what is added up of them fits.
#[derive(Clone, Copy)]
pub(super) struct Gains<'a> {
    pub(super) all: &'a [i32],
    ghost few: { length all.now ≤ 32 },
    ghost small: { within (2 ^ 30) all.now ≡ true },
}

// A gain times the sign of a digit.
fn signed(digit: u32, gain: i32) -> i64
    ensures { result ≡ signed_of digit gain }
{
    let gain = i64::from(gain);
    if digit == 0 { gain } else { -gain }
}

impl<'a> Gains<'a> {
    pub(super) fn new(gains: &'a [i32]) -> Gains<'a>
        requires few { length gains.now ≤ 32 }
        requires small { within (2 ^ 30) gains.now ≡ true }
        ensures { result.all.now ≡ gains.now }
    {
        Gains { all: gains }
    }

    // The word with digit 1 exactly where the gain is negative, and its correlation: the sizes of the gains, added.
    #[tactic(auto, using(crate::proofs::SignSteps::added_small, crate::specs::SignLaws::correlation_signs))]
    pub(super) fn signs(self) -> (u32, i64)
        ensures word { result.0 ≡ word_of (signs_of self.entry.all.now) }
        ensures correlation { result.1 ≡ correlation_of (word_of (signs_of self.entry.all.now)) self.entry.all.now }
    {
        let word = self
            .all
            .iter()
            .rev()
            .fold(0, |word, gain| (word << 1) | u32::from(*gain < 0));
        let sizes: u64 = self
            .all
            .iter()
            .map(|gain| u64::from(gain.unsigned_abs()))
            .sum();
        // the sum is proved to fit; a `TryFrom` would bring an error that never comes
        (word, sizes as i64)
    }

    // Gain times sign, added over the cells. A loop, since no bound is known of a chain's sum of signed numbers.
    pub(super) fn correlation(self, word: u32) -> i64
        ensures { result ≡ correlation_of word self.entry.all.now }
    {
        let mut sum = 0;
        let mut rest = word;
        for gain in self.all {
            sum += signed(rest % 2, *gain);
            rest /= 2;
        }
        sum
    }

    // A table that begins with the gains, and holds zeros behind them: of fixed length, since the library
    // allocates nothing; an `ArrayVec` would bring a crate for this one value.
    pub(super) fn table(self) -> [i64; MOST_CELLS]
        ensures { take (length self.entry.all.now) result ≡ self.entry.all.now }
    {
        array::from_fn(|i| self.all.get(i).map_or(0, |gain| i64::from(*gain)))
    }
}
