ghost use Rattle.std.specs.Prelude.{◌≡◌, ◌<◌, [], length, pos, MatchOption, slice_index_or, unsigned_abs};
ghost use Rattle.finders.specs.Words.{correlation as correlation_of};
ghost use Rattle.finders.specs.WordFinders.{Same};
ghost use Rattle.codes.specs.EvenWeight.{even_weight, even, even_pick, weakest};
ghost use Rattle.codes.specs.EvenWeightLaws.{even_weight_lawful};

use super::gains::Gains;
use super::shapes::shape_of;
use finders::choice::{Least, first_best};
use finders::refusals::Refusal;
use finders::words::{WordFinder, WordShape, WordTester};

// The words with an even number of ones. `Universe` has the same field and the same shape, a line each; to hold both in one type, a
// parameter would have to carry the set, the pick, the test and their laws, which are all that a code is.
#[derive(Clone, Copy)]
pub struct EvenWeight {
    width: usize,
}

impl EvenWeight {
    // The words of even weight of so many cells: fit for 1 to 32 of them.
    pub fn new(width: usize) -> EvenWeight
        ensures means_the_code { Same (⟦<EvenWeight as WordFinder>⟧.meaning result) (even_weight width) }
    {
        EvenWeight { width }
    }
}

fn has_even_weight(word: u32) -> bool
    ensures { result ≡ even word }
{
    word.count_ones() % 2 == 0
}

// The cell of the smallest gain size, the first of equals, with that size; none where there is no cell.
fn weakest(gains: &[i32]) -> Option<(usize, Least)>
    ensures { MatchOption result (gains.now ≡ []) (λ c. (c.0 ≡ weakest gains.now) × (c.0 < length gains.now) × (c.1.0 ≡ unsigned_abs (slice_index_or gains.now c.0 (pos 0)))) }
{
    first_best(
        gains
            .iter()
            .map(|gain| Least(u64::from(gain.unsigned_abs()))),
    )
}

// The word of signs, where it has an odd number of ones with its weakest cell reversed; and the correlation that this leaves.
#[tactic(auto, using(crate::specs::EvenWeightLaws::weakest_small, crate::specs::SignLaws::correlation_signs))]
fn even_signs(gains: Gains) -> (u32, i64)
    ensures { result ≡ (even_pick gains.entry.all.now, correlation_of (even_pick gains.entry.all.now) gains.entry.all.now) }
{
    let (word, correlation) = gains.signs();
    if has_even_weight(word) {
        return (word, correlation);
    }
    // both cases are words: with no gains there is nothing to reverse; the size is proved to fit
    match weakest(gains.all) {
        Some((i, Least(size))) => (word ^ (1 << i), correlation - 2 * size as i64),
        None => (word, correlation),
    }
}

impl WordFinder for EvenWeight {
    ghost meaning = { λ e. even_weight e.width };

    ghost lawful = { λ e. even_weight_lawful e.width };

    fn shape(&self) -> Result<WordShape, Refusal> {
        shape_of(self.width)
    }

    fn find(&self, gains: &[i32]) -> Result<(u32, i64), Refusal> {
        self.shape()?.check_find(gains)?;
        Ok(even_signs(Gains::new(gains)))
    }
}

impl WordTester for EvenWeight {
    fn contains(&self, word: u32) -> Result<bool, Refusal> {
        self.shape()?.check_test(word)?;
        Ok(has_even_weight(word))
    }
}
