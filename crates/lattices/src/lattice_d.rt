ghost use Rattle.std.specs.Prelude.{◌≡◌, ◌<◌, [], length, MatchOption, ◌==◌};
ghost use Rattle.finders.specs.Points.{distance as distance_of};
ghost use Rattle.finders.specs.PointFinders.{Same};
ghost use Rattle.lattices.specs.LatticeZ.{rounded};
ghost use Rattle.lattices.specs.LatticeD.{lattice_d, parity, repaired, worst_cell};
ghost use Rattle.lattices.specs.DLaws.{d_lawful};

use super::cells::{Group, shape_of, square};
use finders::choice::{Greatest, first_best};
use finders::points::{PointFinder, PointShape, PointTester};
use finders::refusals::Refusal;
use finders::rounding::{residue_of, round};

// The lattice D: the points with an even sum. `LatticeZ` has the same field and the same shape, a line each; to hold both in one type,
// a parameter would have to carry the set, the pick, the test and their laws, which are all that a lattice is.
#[derive(Clone, Copy)]
pub struct LatticeD {
    width: usize,
}

impl LatticeD {
    // D of so many cells: fit for 1 to 32 of them.
    pub fn new(width: usize) -> LatticeD
        ensures means_the_lattice { Same (⟦<LatticeD as PointFinder>⟧.meaning result) (lattice_d width) }
    {
        LatticeD { width }
    }
}

// Whether the numbers of a point add to an even number. A fold, without a branch: `filter` and `count` were measured slower.
fn has_even_sum(point: &[i32]) -> bool
    ensures { result ≡ (parity point.now == 0) }
{
    point
        .iter()
        .fold(true, |even, &number| even == (number % 2 == 0))
}

impl Group<'_> {
    // The cell of the rounded point whose residue is largest in size, the first of equals; none where there is no cell.
    fn worst(&self, point: &[i32]) -> Option<usize>
        requires rounded { point.now ≡ rounded self.now.step self.now.readings.now }
        ensures { MatchOption result (self.now.readings.now ≡ []) (λ i. (i ≡ worst_cell self.now.step self.now.readings.now) × (i < length self.now.readings.now)) }
    {
        let sizes = self.readings.iter().zip(point).map(|(&reading, &number)| {
            Greatest(residue_of(reading, self.step, number).abs())
        });
        first_best(sizes).map(|(i, _)| i)
    }

    // Turns the worst cell of the rounded point the other way, and answers the squared distance that this gives.
    fn repair(&self, place: &mut [i32], distance: u64) -> u64
        requires rounded { place.old ≡ rounded self.now.step self.now.readings.now }
        requires distance { distance ≡ distance_of self.now.step self.now.readings.now (rounded self.now.step self.now.readings.now) }
        ensures point { place.new ≡ repaired self.now.step self.now.readings.now }
        ensures distance { result ≡ distance_of self.now.step self.now.readings.now (repaired self.now.step self.now.readings.now) }
    {
        // no cell, nothing to repair: said by itself, since a `map_or` would hide it
        let Some(i) = self.worst(place) else {
            return distance;
        };
        let cell = round(self.readings[i], self.step);
        let size = cell.residue.unsigned_abs();
        // of readings of 2^30 it is proved to fit; a `TryFrom` would bring an error that never comes
        place[i] = cell.other_way() as i32;
        distance - square(size) + square(self.step - size)
    }
}

impl PointFinder for LatticeD {
    ghost meaning = { λ d. lattice_d d.width };

    ghost lawful = { λ d. d_lawful d.width };

    fn shape(&self) -> Result<PointShape, Refusal> {
        shape_of(self.width)
    }

    fn find(&self, readings: &[i32], step: u32, place: &mut [i32]) -> Result<u64, Refusal> {
        self.shape()?.check_find(readings, step, place.len())?;
        let group = Group { readings, step };
        let distance = group.round_into(place);
        if has_even_sum(place) {
            return Ok(distance);
        }
        Ok(group.repair(place, distance))
    }
}

impl PointTester for LatticeD {
    fn contains(&self, point: &[i32]) -> Result<bool, Refusal> {
        self.shape()?.check_test(point)?;
        Ok(has_even_sum(point))
    }
}
