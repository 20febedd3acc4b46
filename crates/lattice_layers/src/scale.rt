ghost use Rattle.std.specs.Prelude.{◌≡◌, ◌≢◌, ◌+◌, ◌^◌, true, MatchBool, List, length, ℤ};
ghost use Rattle.finders.specs.Points.{within};
ghost use Rattle.finders.specs.PointFinders.{Same};
ghost use Rattle.lattice_layers.specs.Scale.{times, factor_in_range, scaled};
ghost use Rattle.lattice_layers.specs.ScaleLaws.{scaled_lawful};

use finders::points::{MOST_CELLS, PointFinder, PointShape, PointTester};
use finders::refusals::Refusal;

// The smallest factor.
const LEAST_FACTOR: u32 = 2;

// The largest factor.
const MOST_FACTOR: u32 = 1024;

// The points of a finder, each times a whole number.
#[derive(Clone, Copy, Drop)]
pub struct Scale<F> {
    below: F,
    factor: u32,
}

impl<F: PointFinder> Scale<F> {
    // Fit where what is below is, for a factor of 2 to 1024, where some step is left.
    pub fn new(below: F, factor: u32) -> Scale<F>
        ensures means_the_scaled_points { Same (⟦<Scale<F> as PointFinder>⟧.meaning result) (scaled factor (F.meaning below)) }
    {
        Scale { below, factor }
    }
}

// Multiplies each number by the factor.
fn multiply(numbers: &mut [i32], factor: u32)
    requires in_range { factor_in_range factor ≡ true }
    requires small_products { within (2 ^ 30 + 2 ^ 20) (times factor numbers.old) ≡ true }
    ensures { numbers.new ≡ times factor numbers.old }
{
    let factor = factor as i32;
    for number in numbers.iter_mut() {
        *number *= factor;
    }
}

// Writes each number divided by the factor where all are multiples of it, and tells whether they are.
fn divide(numbers: &[i32], factor: u32, quotients: &mut [i32]) -> bool
    requires in_range { factor_in_range factor ≡ true }
    requires as_many { length quotients.old ≡ length numbers.now }
    ensures { MatchBool result (numbers.now ≡ times factor quotients.new) ((p : List ℤ) → numbers.now ≢ times factor p) }
{
    let factor = factor as i32;
    for (i, &number) in numbers.iter().enumerate() {
        if number % factor != 0 {
            return false;
        }
        quotients[i] = number / factor;
    }
    true
}

impl<F: PointFinder> PointFinder for Scale<F> {
    ghost meaning = { λ s. scaled s.factor (F.meaning s.below) };

    ghost lawful = { λ s. scaled_lawful s.factor (F.meaning s.below) (F.lawful s.below) };

    fn shape(&self) -> Result<PointShape, Refusal> {
        let below = self.below.shape()?;
        if self.factor < LEAST_FACTOR || self.factor > MOST_FACTOR {
            return Err(Refusal::Factor);
        }
        let step_limit = below.step_limit / self.factor;
        if step_limit < 1 {
            return Err(Refusal::Exhausted);
        }
        Ok(PointShape {
            step_limit,
            ..below
        })
    }

    fn find(&self, readings: &[i32], step: u32, place: &mut [i32]) -> Result<u64, Refusal> {
        self.shape()?.check_find(readings, step, place.len())?;
        let distance = self.below.find(readings, self.factor * step, place)?;
        multiply(place, self.factor);
        Ok(distance)
    }
}

impl<F: PointTester> PointTester for Scale<F> {
    fn contains(&self, point: &[i32]) -> Result<bool, Refusal> {
        self.shape()?.check_test(point)?;
        let mut place = [0; MOST_CELLS];
        let quotients = &mut place[..point.len()];
        Ok(divide(point, self.factor, quotients) && self.below.contains(quotients)?)
    }
}
