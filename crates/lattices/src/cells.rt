ghost use Rattle.std.specs.Prelude.{◌≡◌, ◌*◌, ◌^◌, ◌≤◌, true, length};
ghost use Rattle.finders.specs.Points.{distance, within};
ghost use Rattle.lattices.specs.LatticeZ.{rounded};
ghost use Rattle.lattices.specs.Widest.{widest_shape};

use finders::checks::check_width;
use finders::points::{MOST_READING, MOST_STEP, PointShape};
use finders::refusals::Refusal;
use finders::rounding::round;

// The shape of a lattice of so many cells, with the widest limits.
pub(super) fn shape_of(width: usize) -> Result<PointShape, Refusal>
    ensures { result ≡ widest_shape width }
{
    check_width(width)?;
    Ok(PointShape {
        width,
        reading_limit: MOST_READING,
        step_limit: MOST_STEP,
    })
}

// The readings and the step of a find that is granted.
#[derive(Clone, Copy)]
pub(super) struct Group<'a> {
    pub(super) readings: &'a [i32],
    pub(super) step: u32,
    ghost few_cells: { length readings.now ≤ 32 },
    ghost small_readings: { within (2 ^ 30) readings.now ≡ true },
    ghost some_step: { 1 ≤ step },
    ghost small_step: { step ≤ 2 ^ 20 },
}

pub(super) fn square(size: u32) -> u64
    ensures { result ≡ size * size }
{
    u64::from(size) * u64::from(size)
}

impl Group<'_> {
    // Rounds each reading into the place, and answers the squared distance.
    pub(super) fn round_into(&self, place: &mut [i32]) -> u64
        requires as_wide { length place.old ≡ length self.now.readings.now }
        ensures point { place.new ≡ rounded self.now.step self.now.readings.now }
        ensures distance { result ≡ distance self.now.step self.now.readings.now (rounded self.now.step self.now.readings.now) }
    {
        let mut distance = 0;
        // by index: of a loop over `zip` with `iter_mut` the checker would know nothing, and to copy the readings into the place
        // first takes longer than one or two cells do
        for (i, coordinate) in place.iter_mut().enumerate() {
            let cell = round(self.readings[i], self.step);
            *coordinate = cell.number;
            distance += square(cell.residue.unsigned_abs());
        }
        distance
    }
}
