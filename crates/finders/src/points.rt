ghost use Rattle.std.specs.Prelude.{◌≡◌};
ghost use Rattle.finders.specs.Meanings.{Meaning, fitness_of};
ghost use Rattle.finders.specs.PointFinders.{PointFit, Lawful, shape_of, width_of, reading_limit_of, step_limit_of, find_answer, find_place, Contains};

use super::refusals::Refusal;

// The most cells of a group.
pub const MOST_CELLS: usize = 32;

// The largest size of a reading that any finder takes.
pub const MOST_READING: u32 = 1 << 30;

// The largest step that any finder takes.
pub const MOST_STEP: u32 = 1 << 20;

// How many cells the points of a finder have, the largest size of a reading, and the largest step.
#[derive(Clone, Copy)]
pub struct PointShape {
    pub width: usize,
    pub reading_limit: u32,
    pub step_limit: u32,
}

// Finds the nearest point of a set, fit or unfit by its meaning.
pub trait PointFinder {
    ghost meaning: { Self → Meaning PointFit };

    // The width and the limits, or the refusal that made the finder unfit.
    fn shape(&self) -> Result<PointShape, Refusal>
        ensures tells_the_shape { result ≡ shape_of (meaning self.now) };

    // Writes the pick into the place and answers its squared distance.
    fn find(&self, readings: &[i32], step: u32, place: &mut [i32]) -> Result<u64, Refusal>
        ensures answers_the_distance { result ≡ find_answer (meaning self.now) readings.now step place.old }
        ensures writes_the_pick { place.new ≡ find_place (meaning self.now) readings.now step place.old };

    fn fitness(&self) -> Result<(), Refusal>
        ensures tells_fitness { result ≡ fitness_of (meaning self.now) }
    {
        self.shape().map(|_| ())
    }

    fn width(&self) -> usize
        ensures tells_the_width { result ≡ width_of (meaning self.now) }
    {
        self.shape().map_or(0, |shape| shape.width)
    }

    fn reading_limit(&self) -> u32
        ensures tells_the_reading_limit { result ≡ reading_limit_of (meaning self.now) }
    {
        self.shape().map_or(0, |shape| shape.reading_limit)
    }

    fn step_limit(&self) -> u32
        ensures tells_the_step_limit { result ≡ step_limit_of (meaning self.now) }
    {
        self.shape().map_or(0, |shape| shape.step_limit)
    }

    ghost lawful: { (x : Self) → Lawful (meaning x) };
}

// A finder that knows its set.
pub trait PointTester: PointFinder {
    // Whether a point belongs to the set.
    fn contains(&self, point: &[i32]) -> Result<bool, Refusal>
        ensures yes_exactly_for_members { Contains (Self.PointFinder.meaning self.now) point.now result };
}
