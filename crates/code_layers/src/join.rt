ghost use Rattle.std.specs.Prelude.{◌≡◌, Ok, Err, MatchResult};
ghost use Rattle.finders.specs.WordFinders.{shape_of, width_of, Same};
ghost use Rattle.code_layers.specs.Join.{joined};
ghost use Rattle.code_layers.specs.JoinLaws.{joined_lawful};

use finders::checks::check_width;
use finders::refusals::Refusal;
use finders::words::{WordFinder, WordShape, WordTester};

// A word of the first finder, and after it a word of the second.
#[derive(Clone, Copy, Drop)]
pub struct Join<F, G> {
    first: F,
    second: G,
}

impl<F: WordFinder, G: WordFinder> Join<F, G> {
    // Fit where both are, and have no more than 32 cells together.
    pub fn new(first: F, second: G) -> Join<F, G>
        ensures means_the_joined_words { Same (⟦<Join<F, G> as WordFinder>⟧.meaning result) (joined (F.meaning first) (G.meaning second)) }
    {
        Join { first, second }
    }

    // The shape, and how many cells the first word has.
    fn layout(&self) -> Result<(WordShape, usize), Refusal>
        ensures { MatchResult result (λ r. (Ok r.0 ≡ shape_of (joined (F.meaning self.now.first) (G.meaning self.now.second))) × (r.1 ≡ width_of (F.meaning self.now.first))) (λ e. Err e ≡ shape_of (joined (F.meaning self.now.first) (G.meaning self.now.second))) }
    {
        let first = self.first.shape()?;
        let second = self.second.shape()?;
        let width = first.width + second.width;
        check_width(width)?;
        let gain_limit = first.gain_limit.min(second.gain_limit);
        Ok((WordShape { width, gain_limit }, first.width))
    }
}

impl<F: WordFinder, G: WordFinder> WordFinder for Join<F, G> {
    ghost meaning = { λ j. joined (F.meaning j.first) (G.meaning j.second) };

    ghost lawful = { λ j. joined_lawful (F.meaning j.first) (G.meaning j.second) (F.lawful j.first) (G.lawful j.second) };

    fn shape(&self) -> Result<WordShape, Refusal> {
        let (shape, _) = self.layout()?;
        Ok(shape)
    }

    fn find(&self, gains: &[i32]) -> Result<(u32, i64), Refusal> {
        let (shape, cut) = self.layout()?;
        shape.check_find(gains)?;
        let (front, back) = gains.split_at(cut);
        let (low, first) = self.first.find(front)?;
        let (high, second) = self.second.find(back)?;
        Ok(((high << cut) | low, first + second))
    }
}

impl<F: WordTester, G: WordTester> WordTester for Join<F, G> {
    #[tactic(auto, using(crate::specs::PartsLaws::back_fits))]
    fn contains(&self, word: u32) -> Result<bool, Refusal> {
        let (shape, cut) = self.layout()?;
        shape.check_test(word)?;
        Ok(self.first.contains(word % (1 << cut))? && self.second.contains(word >> cut)?)
    }
}
