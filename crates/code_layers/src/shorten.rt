ghost use Rattle.std.specs.Prelude.{◌≡◌, ◌+◌, ◌<◌, length, take};
ghost use Rattle.finders.specs.WordFinders.{Same};
ghost use Rattle.code_layers.specs.Shorten.{shortened, with_last};
ghost use Rattle.code_layers.specs.ShortenLaws.{shortened_lawful};

use finders::checks::check_width;
use finders::points::MOST_CELLS;
use finders::refusals::Refusal;
use finders::words::{WordFinder, WordShape, WordTester};

// The words of a finder, each without its last cell.
#[derive(Clone, Copy, Drop)]
pub struct Shorten<F> {
    below: F,
}

impl<F: WordFinder> Shorten<F> {
    // Fit where what is below is, and has more than one cell.
    pub fn new(below: F) -> Shorten<F>
        ensures means_the_shortened_words { Same (⟦<Shorten<F> as WordFinder>⟧.meaning result) (shortened (F.meaning below)) }
    {
        Shorten { below }
    }
}

// An array that begins with the gains, and a gain of 0 behind them.
fn with_last(gains: &[i32]) -> [i32; MOST_CELLS]
    requires few { length gains.now < 32 }
    ensures { take (length gains.now + 1) result ≡ with_last gains.now }
{
    let mut all = [0; MOST_CELLS];
    all[..gains.len()].copy_from_slice(gains);
    all
}

impl<F: WordFinder> WordFinder for Shorten<F> {
    ghost meaning = { λ s. shortened (F.meaning s.below) };

    ghost lawful = { λ s. shortened_lawful (F.meaning s.below) (F.lawful s.below) };

    fn shape(&self) -> Result<WordShape, Refusal> {
        let below = self.below.shape()?;
        let width = below.width - 1;
        check_width(width)?;
        Ok(WordShape { width, ..below })
    }

    fn find(&self, gains: &[i32]) -> Result<(u32, i64), Refusal> {
        self.shape()?.check_find(gains)?;
        let cells = gains.len();
        let (word, correlation) = self.below.find(&with_last(gains)[..cells + 1])?;
        Ok((word % (1 << cells), correlation))
    }
}

impl<F: WordTester> WordTester for Shorten<F> {
    fn contains(&self, word: u32) -> Result<bool, Refusal> {
        let shape = self.shape()?;
        shape.check_test(word)?;
        Ok(self.below.contains(word)? || self.below.contains(word | (1 << shape.width))?)
    }
}
