ghost use Rattle.std.specs.Prelude.{◌≡◌, ◌^◌, ◌<◌, ◌≤◌, true, length, map, ◌-◌, MatchResult};
ghost use Rattle.finders.specs.declared.refusals.Refusal.TheVariants.{Length};
ghost use Rattle.finders.specs.Points.{within};
ghost use Rattle.integers.specs.Sums.{plus};
ghost use Rattle.lattice_layers.specs.Rows.{all_as_wide, all_within, largest as largest_of, reach as reach_of, row_sum};

use finders::checks;
use finders::points::MOST_CELLS;
use finders::refusals::Refusal;

// The most rows.
const MOST_ROWS: usize = 13;

// Up to 32 numbers, copied: the first `count` of an array of fixed length, since the library allocates nothing. The rest of the array
// is not used.
#[derive(Clone, Copy)]
struct Row {
    count: usize,
    numbers: [i32; MOST_CELLS],
    ghost held: { count ≤ 32 },
}

// Up to 13 rows, held likewise.
#[derive(Clone, Copy)]
pub(super) struct Table {
    count: usize,
    rows: [Row; MOST_ROWS],
    ghost held: { count ≤ 13 },
}

impl Row {
    ghost use Rattle.lattice_layers.specs.Table.{numbers_in};

    // A copy of the numbers, refused where there are more than a row holds.
    fn new(numbers: &[i32]) -> Result<Row, Refusal>
        ensures { MatchResult result (λ r. (length numbers.now ≤ 32) × (numbers_in r ≡ numbers.now)) (λ e. (e ≡ Length) × (32 < length numbers.now)) }
    {
        let count = numbers.len();
        if count > MOST_CELLS {
            return Err(Refusal::Length);
        }
        let mut array = [0; MOST_CELLS];
        array[..count].copy_from_slice(numbers);
        Ok(Row {
            count,
            numbers: array,
        })
    }

    fn all(&self) -> &[i32]
        ensures { result.now ≡ numbers_in self.now }
    {
        let count = self.count;
        &self.numbers[..count]
    }

    // The largest size of a number.
    fn largest(&self) -> u32
        ensures { result ≡ largest_of (numbers_in self.now) }
    {
        self.all()
            .iter()
            .fold(0, |size, number| number.unsigned_abs().max(size))
    }
}

impl Table {
    ghost use Rattle.lattice_layers.specs.Table.{slices, numbers_in, rows_in, rows_held, table_held};

    // A copy of the rows, or why there is none.
    pub(super) fn new(rows: &[&[i32]]) -> Result<Table, Refusal>
        ensures { rows_held result ≡ table_held (slices rows.now) }
    {
        let count = rows.len();
        if count > MOST_ROWS {
            return Err(Refusal::GlueCount);
        }
        let none = Row {
            count: 0,
            numbers: [0; MOST_CELLS],
        };
        let mut array = [none; MOST_ROWS];
        for (i, numbers) in rows.iter().enumerate() {
            array[i] = Row::new(numbers)?;
        }
        Ok(Table { count, rows: array })
    }

    fn all(&self) -> &[Row]
        ensures rows { map numbers_in result.now ≡ rows_in self.now }
        ensures few { length result.now ≤ 13 }
    {
        let count = self.count;
        &self.rows[..count]
    }

    // Whether each row has so many numbers.
    pub(super) fn all_as_wide(&self, width: usize) -> bool
        ensures { result ≡ all_as_wide width (rows_in self.now) }
    {
        self.all().iter().all(|row| row.all().len() == width)
    }

    // Whether no number is larger in size than a limit.
    pub(super) fn all_within(&self, limit: u32) -> bool
        ensures { result ≡ all_within limit (rows_in self.now) }
    {
        self.all()
            .iter()
            .all(|row| checks::all_within(row.all(), limit))
    }

    // How far a sum of the rows can move a coordinate: the largest sizes of the rows, added.
    pub(super) fn reach(&self) -> u32
        requires small { all_within 1024 (rows_in self.now) ≡ true }
        ensures { result ≡ reach_of (rows_in self.now) }
    {
        let mut reach = 0;
        for row in self.all() {
            reach += row.largest();
        }
        reach
    }

    // How many sums there are: one for each choice of some rows.
    pub(super) fn sum_count(&self) -> u32
        ensures { result ≡ 2 ^ length (rows_in self.now) }
    {
        1 << self.count
    }

    // Writes the sum of the rows whose bit in j is 1.
    pub(super) fn write_sum(&self, j: u32, sum: &mut [i32])
        requires as_wide { all_as_wide (length sum.old) (rows_in self.now) ≡ true }
        requires small { all_within 1024 (rows_in self.now) ≡ true }
        ensures { sum.new ≡ row_sum (length sum.old) (rows_in self.now) j }
    {
        sum.fill(0);
        let mut rest = j;
        for row in self.all() {
            if rest % 2 != 0 {
                add(sum, row.all());
            }
            rest /= 2;
        }
    }
}

// Adds the numbers, each to the one in its place.
pub(super) fn add(numbers: &mut [i32], more: &[i32])
    requires as_many { length more.now ≡ length numbers.old }
    requires fit { within (2 ^ 31 - 1) (plus numbers.old more.now) ≡ true }
    ensures { numbers.new ≡ plus numbers.old more.now }
{
    for (i, &number) in more.iter().enumerate() {
        numbers[i] += number;
    }
}
