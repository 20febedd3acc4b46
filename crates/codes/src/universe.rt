ghost use Rattle.finders.specs.WordFinders.{Same};
ghost use Rattle.codes.specs.Universe.{universe};
ghost use Rattle.codes.specs.UniverseLaws.{universe_lawful};

use super::gains::Gains;
use super::shapes::shape_of;
use finders::refusals::Refusal;
use finders::words::{WordFinder, WordShape, WordTester};

// All words of a width.
#[derive(Clone, Copy)]
pub struct Universe {
    width: usize,
}

impl Universe {
    // All words of so many cells: fit for 1 to 32 of them.
    pub fn new(width: usize) -> Universe
        ensures means_the_code { Same (⟦<Universe as WordFinder>⟧.meaning result) (universe width) }
    {
        Universe { width }
    }
}

impl WordFinder for Universe {
    ghost meaning = { λ u. universe u.width };

    ghost lawful = { λ u. universe_lawful u.width };

    fn shape(&self) -> Result<WordShape, Refusal> {
        shape_of(self.width)
    }

    fn find(&self, gains: &[i32]) -> Result<(u32, i64), Refusal> {
        self.shape()?.check_find(gains)?;
        Ok(Gains::new(gains).signs())
    }
}

impl WordTester for Universe {
    fn contains(&self, word: u32) -> Result<bool, Refusal> {
        self.shape()?.check_test(word)?;
        Ok(true)
    }
}
