ghost use Rattle.std.specs.Prelude.{◌≡◌, ◌≤◌, ◌^◌, true, length, Ok, Err, MatchResult};
ghost use Rattle.finders.specs.Points.{within};
ghost use Rattle.finders.specs.PointFinders.{find_answer, find_place, Contains, Same};
ghost use Rattle.lattice_layers.specs.Table.{slices, rows_in, rows_held};
ghost use Rattle.lattice_layers.specs.Glue.{taken_off, glued, glued_by};
ghost use Rattle.lattice_layers.specs.GlueFinds.{Granted, Tested};
ghost use Rattle.lattice_layers.specs.GlueLaws.{glued_lawful};

use finders::choice::{FirstBest, Least};
use finders::points::{MOST_CELLS, PointFinder, PointShape, PointTester};
use finders::refusals::Refusal;
use finders::rounding::residue_of;
use table::{Table, add};

mod table;

// The largest size of a row's number.
const MOST_ENTRY: u32 = 1024;

// The points of a finder, each moved by each sum of some rows. Of rows that no table takes, only the refusal is held.
#[derive(Clone, Copy, Drop)]
pub struct Glue<F> {
    below: F,
    rows: Result<Table, Refusal>,
}

impl<F: PointFinder> Glue<F> {
    // Fit where what is below is, for no more than 13 rows, which are copied, each of as many numbers as there are cells, none larger
    // in size than 1024, where some reading is left.
    pub fn new(below: F, rows: &[&[i32]]) -> Glue<F>
        ensures means_the_glued_points { Same (⟦<Glue<F> as PointFinder>⟧.meaning result) (glued (slices rows.now) (F.meaning below)) }
    {
        Glue {
            below,
            rows: Table::new(rows),
        }
    }

    // The rows, or why there is no table of them.
    fn rows(&self) -> Result<&Table, Refusal>
        ensures { MatchResult result (λ t. rows_held self.now.rows ≡ Ok (rows_in t.now)) (λ e. rows_held self.now.rows ≡ Err e) }
    {
        self.rows.as_ref().map_err(|refusal| *refusal)
    }

    // Writes the first of the nearest points that the sums move, in the order of their numbers, and answers its squared distance.
    fn best(
        &self,
        rows: &Table,
        readings: &[i32],
        step: u32,
        place: &mut [i32],
    ) -> Result<u64, Refusal>
        requires granted { Granted (rows_in rows.now) (F.meaning self.now.below) readings.now step place.old }
        ensures distance { result ≡ find_answer (glued (rows_in rows.now) (F.meaning self.now.below)) readings.now step place.old }
        ensures point { place.new ≡ find_place (glued (rows_in rows.now) (F.meaning self.now.below)) readings.now step place.old }
    {
        let mut sum = [0; MOST_CELLS];
        let sum = &mut sum[..readings.len()];
        let mut moved = [0; MOST_CELLS];
        let moved = &mut moved[..readings.len()];
        let mut point = [0; MOST_CELLS];
        let point = &mut point[..readings.len()];
        let mut best = FirstBest::none();
        for j in 0..rows.sum_count() {
            rows.write_sum(j, sum);
            take_off(readings, step, sum, moved);
            let distance = self.below.find(moved, step, point)?;
            // the point of the sum that is held stands in the place
            if best.offer(j, Least(distance)) {
                place.copy_from_slice(point);
                add(place, sum);
            }
        }
        // there is a sum, that of no row, so there is a nearest point
        let (_, Least(distance)) = best.held.unwrap();
        Ok(distance)
    }
}

// Writes the readings with the step times each number taken off.
fn take_off(readings: &[i32], step: u32, numbers: &[i32], place: &mut [i32])
    requires as_many { length numbers.now ≡ length readings.now }
    requires room { length place.old ≡ length readings.now }
    requires fit { within (2 ^ 30) (taken_off step numbers.now readings.now) ≡ true }
    ensures { place.new ≡ taken_off step numbers.now readings.now }
{
    for (i, &reading) in readings.iter().enumerate() {
        place[i] = residue_of(reading, step, numbers[i]) as i32;
    }
}

impl<F: PointFinder> PointFinder for Glue<F> {
    ghost meaning = { λ g. glued_by (rows_held g.rows) (F.meaning g.below) };

    ghost lawful = { λ g. glued_lawful (rows_held g.rows) (F.meaning g.below) (F.lawful g.below) };

    fn shape(&self) -> Result<PointShape, Refusal> {
        let below = self.below.shape()?;
        let rows = self.rows()?;
        if !rows.all_as_wide(below.width) {
            return Err(Refusal::Length);
        }
        if !rows.all_within(MOST_ENTRY) {
            return Err(Refusal::Entry);
        }
        // in 64 bits, since 13 rows of 1024 at the step 2^20 go beyond 32
        let used = u64::from(rows.reach()) * u64::from(below.step_limit);
        let limit = u64::from(below.reading_limit);
        if used >= limit {
            return Err(Refusal::Exhausted);
        }
        Ok(PointShape {
            reading_limit: (limit - used) as u32,
            ..below
        })
    }

    fn find(&self, readings: &[i32], step: u32, place: &mut [i32]) -> Result<u64, Refusal> {
        self.shape()?.check_find(readings, step, place.len())?;
        self.best(self.rows()?, readings, step, place)
    }
}

impl<F: PointTester> Glue<F> {
    // Whether some sum moves a point below to this one.
    fn moves_below(&self, rows: &Table, point: &[i32]) -> Result<bool, Refusal>
        requires tested { Tested (rows_in rows.now) (F.PointFinder.meaning self.now.below) point.now }
        ensures { Contains (glued (rows_in rows.now) (F.PointFinder.meaning self.now.below)) point.now result }
    {
        let mut sum = [0; MOST_CELLS];
        let sum = &mut sum[..point.len()];
        let mut moved = [0; MOST_CELLS];
        let moved = &mut moved[..point.len()];
        for j in 0..rows.sum_count() {
            rows.write_sum(j, sum);
            // at the step 1, which takes the sum itself off
            take_off(point, 1, sum, moved);
            if self.below.contains(moved)? {
                return Ok(true);
            }
        }
        Ok(false)
    }
}

impl<F: PointTester> PointTester for Glue<F> {
    fn contains(&self, point: &[i32]) -> Result<bool, Refusal> {
        self.shape()?.check_test(point)?;
        self.moves_below(self.rows()?, point)
    }
}
