ghost use Rattle.std.specs.Prelude.{◌≡◌, Ok, Err, MatchResult};
ghost use Rattle.finders.specs.WordFinders.{shape_of, width_of, Same};
ghost use Rattle.code_layers.specs.Repeat.{repeated_words};
ghost use Rattle.code_layers.specs.RepeatLaws.{repeated_lawful};

use finders::checks::check_width;
use finders::refusals::Refusal;
use finders::words::{WordFinder, WordShape, WordTester};
use groups::Groups;

mod groups;

// The fewest times that a digit is written.
const LEAST_TIMES: usize = 2;

// The most times.
const MOST_TIMES: usize = 32;

// The words of a finder, each digit so many times in a row.
#[derive(Clone, Copy, Drop)]
pub struct Repeat<F> {
    below: F,
    times: usize,
}

impl<F: WordFinder> Repeat<F> {
    // Fit where what is below is, for 2 to 32 times, where the words have no more than 32 cells and some gain is left.
    pub fn new(below: F, times: usize) -> Repeat<F>
        ensures means_the_repeated_words { Same (⟦<Repeat<F> as WordFinder>⟧.meaning result) (repeated_words times (F.meaning below)) }
    {
        Repeat { below, times }
    }

    // The shape, and the groups of its cells.
    fn layout(&self) -> Result<(WordShape, Groups), Refusal>
        ensures { MatchResult result (λ r. (Ok r.0 ≡ shape_of (repeated_words self.now.times (F.meaning self.now.below))) × (r.1.size ≡ self.now.times) × (r.1.count ≡ width_of (F.meaning self.now.below))) (λ e. Err e ≡ shape_of (repeated_words self.now.times (F.meaning self.now.below))) }
    {
        let below = self.below.shape()?;
        if self.times < LEAST_TIMES || self.times > MOST_TIMES {
            return Err(Refusal::Factor);
        }
        let width = self.times * below.width;
        check_width(width)?;
        let gain_limit = below.gain_limit / self.times as u32;
        if gain_limit < 1 {
            return Err(Refusal::Exhausted);
        }
        let groups = Groups {
            size: self.times,
            count: below.width,
        };
        Ok((WordShape { width, gain_limit }, groups))
    }
}

impl<F: WordFinder> WordFinder for Repeat<F> {
    ghost meaning = { λ r. repeated_words r.times (F.meaning r.below) };

    ghost lawful = { λ r. repeated_lawful r.times (F.meaning r.below) (F.lawful r.below) };

    fn shape(&self) -> Result<WordShape, Refusal> {
        let (shape, _) = self.layout()?;
        Ok(shape)
    }

    fn find(&self, gains: &[i32]) -> Result<(u32, i64), Refusal> {
        let (shape, groups) = self.layout()?;
        shape.check_find(gains)?;
        let sums = groups.sums(gains);
        let (word, correlation) = self.below.find(&sums[..groups.count])?;
        Ok((groups.repeated(word), correlation))
    }
}

impl<F: WordTester> WordTester for Repeat<F> {
    fn contains(&self, word: u32) -> Result<bool, Refusal> {
        let (shape, groups) = self.layout()?;
        shape.check_test(word)?;
        let firsts = groups.firsts(word);
        Ok(groups.repeated(firsts) == word && self.below.contains(firsts)?)
    }
}
