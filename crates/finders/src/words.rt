ghost use Rattle.std.specs.Prelude.{◌≡◌};
ghost use Rattle.finders.specs.Meanings.{Meaning, fitness_of};
ghost use Rattle.finders.specs.WordFinders.{WordFit, Lawful, shape_of, width_of, gain_limit_of, find_answer, Contains};

use super::refusals::Refusal;

// The largest size of a gain that any finder of words takes.
pub const MOST_GAIN: u32 = 1 << 30;

// How many cells the words of a finder have, and the largest size of a gain.
#[derive(Clone, Copy)]
pub struct WordShape {
    pub width: usize,
    pub gain_limit: u32,
}

// Finds the word of greatest correlation in a set, fit or unfit by its meaning.
pub trait WordFinder {
    ghost meaning: { Self → Meaning WordFit };

    // The width and the limit, or the refusal that made the finder unfit.
    fn shape(&self) -> Result<WordShape, Refusal>
        ensures tells_the_shape { result ≡ shape_of (meaning self.now) };

    // The pick and its correlation.
    fn find(&self, gains: &[i32]) -> Result<(u32, i64), Refusal>
        ensures answers_the_pick_and_its_correlation { result ≡ find_answer (meaning self.now) gains.now };

    // `fitness` and the questions below stand in `PointFinder` too, a line each: one trait above both would speak of an
    // unknown kind of meaning, and each of the two would have to turn that into its own.
    fn fitness(&self) -> Result<(), Refusal>
        ensures tells_fitness { result ≡ fitness_of (meaning self.now) }
    {
        self.shape().map(|_| ())
    }

    fn width(&self) -> usize
        ensures tells_the_width { result ≡ width_of (meaning self.now) }
    {
        self.shape().map_or(0, |shape| shape.width)
    }

    fn gain_limit(&self) -> u32
        ensures tells_the_gain_limit { result ≡ gain_limit_of (meaning self.now) }
    {
        self.shape().map_or(0, |shape| shape.gain_limit)
    }

    ghost lawful: { (x : Self) → Lawful (meaning x) };
}

// A finder that can tell the members of its set.
pub trait WordTester: WordFinder {
    // Whether a word belongs to the set.
    fn contains(&self, word: u32) -> Result<bool, Refusal>
        ensures yes_exactly_for_members { Contains (Self.WordFinder.meaning self.now) word result };
}
