ghost use Rattle.std.specs.Prelude.{◌≡◌, Ok, Err, MatchResult};
ghost use Rattle.finders.specs.PointFinders.{shape_of, width_of, Same};
ghost use Rattle.lattice_layers.specs.Join.{joined};
ghost use Rattle.lattice_layers.specs.JoinLaws.{joined_lawful};

use finders::checks::check_width;
use finders::points::{PointFinder, PointShape, PointTester};
use finders::refusals::Refusal;

// A point of the first finder, and after it a point of the second.
#[derive(Clone, Copy, Drop)]
pub struct Join<F, G> {
    first: F,
    second: G,
}

impl<F: PointFinder, G: PointFinder> Join<F, G> {
    // Fit where both are, and have no more than 32 cells together.
    pub fn new(first: F, second: G) -> Join<F, G>
        ensures means_the_joined_points { Same (⟦<Join<F, G> as PointFinder>⟧.meaning result) (joined (F.meaning first) (G.meaning second)) }
    {
        Join { first, second }
    }

    // The shape, and how many cells the first point has.
    fn layout(&self) -> Result<(PointShape, usize), Refusal>
        ensures { MatchResult result (λ r. (Ok r.0 ≡ shape_of (joined (F.meaning self.now.first) (G.meaning self.now.second))) × (r.1 ≡ width_of (F.meaning self.now.first))) (λ e. Err e ≡ shape_of (joined (F.meaning self.now.first) (G.meaning self.now.second))) }
    {
        let first = self.first.shape()?;
        let second = self.second.shape()?;
        let width = first.width + second.width;
        check_width(width)?;
        let shape = PointShape {
            width,
            reading_limit: first.reading_limit.min(second.reading_limit),
            step_limit: first.step_limit.min(second.step_limit),
        };
        Ok((shape, first.width))
    }
}

impl<F: PointFinder, G: PointFinder> PointFinder for Join<F, G> {
    ghost meaning = { λ j. joined (F.meaning j.first) (G.meaning j.second) };

    ghost lawful = { λ j. joined_lawful (F.meaning j.first) (G.meaning j.second) (F.lawful j.first) (G.lawful j.second) };

    fn shape(&self) -> Result<PointShape, Refusal> {
        let (shape, _) = self.layout()?;
        Ok(shape)
    }

    fn find(&self, readings: &[i32], step: u32, place: &mut [i32]) -> Result<u64, Refusal> {
        let (shape, cut) = self.layout()?;
        shape.check_find(readings, step, place.len())?;
        let (front, back) = readings.split_at(cut);
        let (front_place, back_place) = place.split_at_mut(cut);
        let first = self.first.find(front, step, front_place)?;
        let second = self.second.find(back, step, back_place)?;
        Ok(first + second)
    }
}

impl<F: PointTester, G: PointTester> PointTester for Join<F, G> {
    fn contains(&self, point: &[i32]) -> Result<bool, Refusal> {
        let (shape, cut) = self.layout()?;
        shape.check_test(point)?;
        let (front, back) = point.split_at(cut);
        Ok(self.first.contains(front)? && self.second.contains(back)?)
    }
}
