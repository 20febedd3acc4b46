ghost use Rattle.finders.specs.PointFinders.{Same};
ghost use Rattle.lattices.specs.LatticeZ.{lattice_z};
ghost use Rattle.lattices.specs.ZLaws.{z_lawful};

use super::cells::{Group, shape_of};
use finders::points::{PointFinder, PointShape, PointTester};
use finders::refusals::Refusal;

// The lattice Z: every point of whole numbers.
#[derive(Clone, Copy)]
pub struct LatticeZ {
    width: usize,
}

impl LatticeZ {
    // Z of so many cells: fit for 1 to 32 of them.
    pub fn new(width: usize) -> LatticeZ
        ensures means_the_lattice { Same (⟦<LatticeZ as PointFinder>⟧.meaning result) (lattice_z width) }
    {
        LatticeZ { width }
    }
}

impl PointFinder for LatticeZ {
    ghost meaning = { λ z. lattice_z z.width };

    ghost lawful = { λ z. z_lawful z.width };

    fn shape(&self) -> Result<PointShape, Refusal> {
        shape_of(self.width)
    }

    fn find(&self, readings: &[i32], step: u32, place: &mut [i32]) -> Result<u64, Refusal> {
        self.shape()?.check_find(readings, step, place.len())?;
        Ok(Group { readings, step }.round_into(place))
    }
}

impl PointTester for LatticeZ {
    fn contains(&self, point: &[i32]) -> Result<bool, Refusal> {
        self.shape()?.check_test(point)?;
        Ok(true)
    }
}
