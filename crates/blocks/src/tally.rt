ghost use Rattle.std.specs.Prelude.{◌≡◌, ◌+◌, ◌*◌, ◌-◌, ◌/◌, ◌^◌, ◌<◌, ◌≤◌, true, length, take, unsigned_abs};
ghost use Rattle.integers.specs.Sums.{plus};
ghost use Rattle.finders.specs.Points.{square, within};
ghost use Rattle.blocks.specs.Senses.{squares};

use finders::points::MOST_CELLS;

// The readings of each cell, added over some senses, how many senses there were, and the squares of their readings,
// added.
#[derive(Clone, Copy)]
pub(super) struct Tally {
    pub(super) sums: [i32; MOST_CELLS],
    pub(super) count: u32,
    pub(super) energy: u64,
}

impl Tally {
    ghost use Rattle.blocks.specs.Tally.{TalliesNone, Adds};

    // Of no sense.
    pub(super) fn new() -> Tally
        ensures { TalliesNone result }
    {
        Tally {
            sums: [0; MOST_CELLS],
            count: 0,
            energy: 0,
        }
    }

    // Adds a sense, cell by cell.
    pub(super) fn add(&mut self, readings: &[i16])
        requires few_cells { length readings.now ≤ 32 }
        requires few_senses { self.old.count < 2 ^ 10 }
        requires small_sums { within (2 ^ 30) (take (length readings.now) self.old.sums) ≡ true }
        requires small_energy { self.old.energy ≤ 2 ^ 60 }
        ensures { Adds readings.now self.old self.new }
    {
        self.energy += energy_of(readings);
        add_each(&mut self.sums[..readings.len()], readings);
        self.count += 1;
    }

    // The total of a point whose squared distance from the sums of `width` cells, at the step times the count, is
    // this one.
    pub(super) fn total(&self, width: usize, distance: u64) -> u64
        requires few_cells { width ≤ 32 }
        requires some_sense { 1 ≤ self.now.count }
        requires fits { self.now.count * self.now.energy + distance < 2 ^ 64 }
        requires covers_the_squares { squares (take width self.now.sums) ≤ self.now.count * self.now.energy + distance }
        ensures { let all = self.now.count * self.now.energy + distance in
            result ≡ (all - squares (take width self.now.sums)) / self.now.count }
    {
        let count = u64::from(self.count);
        (count * self.energy + distance - squares_of(&self.sums[..width])) / count
    }
}

// Adds each reading to the sum of its cell.
fn add_each(sums: &mut [i32], readings: &[i16])
    requires as_many { length readings.now ≡ length sums.old }
    requires fit { within (2 ^ 31 - 1) (plus sums.old readings.now) ≡ true }
    ensures { sums.new ≡ plus sums.old readings.now }
{
    for (i, &reading) in readings.iter().enumerate() {
        sums[i] += i32::from(reading);
    }
}

// The square of a reading, which 32 bits hold.
fn reading_squared(reading: i16) -> u32
    ensures is_the_square { result ≡ square reading }
    ensures small { unsigned_abs reading ≤ 2 ^ 15 }
{
    let size = u32::from(reading.unsigned_abs());
    size * size
}

// The squares of readings, added.
fn energy_of(readings: &[i16]) -> u64
    requires { length readings.now ≤ 32 }
    ensures squares { result ≡ squares readings.now }
    ensures small { within (2 ^ 15) readings.now ≡ true }
{
    let mut energy = 0;
    for &reading in readings {
        energy += u64::from(reading_squared(reading));
    }
    energy
}

// The squares of numbers, added.
fn squares_of(numbers: &[i32]) -> u64
    requires { squares numbers.now < 2 ^ 64 }
    ensures { result ≡ squares numbers.now }
{
    let mut squares = 0;
    for number in numbers {
        let size = u64::from(number.unsigned_abs());
        squares += size * size;
    }
    squares
}
