ghost use Rattle.finders.specs.PointFinders.{Same};
ghost use Rattle.lattice_layers.specs.ConstructionA.{construction_a};
ghost use Rattle.lattice_layers.specs.ConstructionALaws.{construction_a_lawful};

use cells::{Group, parities};
use finders::points::{MOST_READING, MOST_STEP, PointFinder, PointShape, PointTester};
use finders::refusals::Refusal;
use finders::words::{WordFinder, WordTester};

mod cells;

// The points whose parities form a word of a finder.
#[derive(Clone, Copy, Drop)]
pub struct ConstructionA<F> {
    below: F,
}

impl<F: WordFinder> ConstructionA<F> {
    // Fit where what is below is.
    pub fn new(below: F) -> ConstructionA<F>
        ensures means_the_points_of_the_words { Same (⟦<ConstructionA<F> as PointFinder>⟧.meaning result) (construction_a (F.meaning below)) }
    {
        ConstructionA { below }
    }
}

impl<F: WordFinder> PointFinder for ConstructionA<F> {
    ghost meaning = { λ c. construction_a (F.meaning c.below) };

    ghost lawful = { λ c. construction_a_lawful (F.meaning c.below) (F.lawful c.below) };

    fn shape(&self) -> Result<PointShape, Refusal> {
        let below = self.below.shape()?;
        Ok(PointShape {
            width: below.width,
            reading_limit: MOST_READING,
            step_limit: below.gain_limit.min(MOST_STEP),
        })
    }

    fn find(&self, readings: &[i32], step: u32, place: &mut [i32]) -> Result<u64, Refusal> {
        self.shape()?.check_find(readings, step, place.len())?;
        let group = Group { readings, step };
        let gains = group.round_even(place);
        let (word, _) = self.below.find(&gains[..readings.len()])?;
        Ok(group.turn_odd(place, word))
    }
}

impl<F: WordTester> PointTester for ConstructionA<F> {
    #[tactic(auto, using(crate::proofs::WordsBelow::told_below))]
    fn contains(&self, point: &[i32]) -> Result<bool, Refusal> {
        self.shape()?.check_test(point)?;
        self.below.contains(parities(point))
    }
}
