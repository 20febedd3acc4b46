ghost use Rattle.std.specs.Prelude.{◌≡◌, ◌+◌, ◌^◌, ◌≤◌, ◌<◌, true, map, length, take, unsigned_abs};
ghost use Rattle.integers.specs.Nearest.{residue as residue_at};
ghost use Rattle.finders.specs.Points.{distance as distance_of, within};
ghost use Rattle.lattice_layers.specs.ConstructionA.{nearest_even, odd_beside as beside, nearest_of, gain, parities as parities_of, with_parities};

use finders::points::MOST_CELLS;
use finders::rounding::{residue_of, round};

// The readings and the step of a find that is granted.
#[derive(Clone, Copy)]
pub(super) struct Group<'a> {
    pub(super) readings: &'a [i32],
    pub(super) step: u32,
    ghost few_cells: { length readings.now ≤ 32 },
    ghost small_readings: { within (2 ^ 30) readings.now ≡ true },
    ghost some_step: { 1 ≤ step },
    ghost small_step: { step ≤ 2 ^ 20 },
}

impl Group<'_> {
    // The even number nearest to a reading, and the gain of the cell.
    fn even(&self, reading: i32) -> (i32, i32)
        requires small { unsigned_abs reading ≤ 2 ^ 30 }
        ensures number { result.0 ≡ nearest_even self.now.step reading }
        ensures gain { result.1 ≡ gain self.now.step reading }
    {
        // at twice the step: half of the even number, and what the even number leaves
        let half = round(reading, 2 * self.step);
        (2 * half.number, self.step as i32 - 2 * half.residue.abs())
    }

    // Writes the nearest even numbers into the place, and answers the gains of the cells, at the head of an array of fixed length, since
    // the library allocates nothing.
    pub(super) fn round_even(&self, place: &mut [i32]) -> [i32; MOST_CELLS]
        requires as_wide { length place.old ≡ length self.now.readings.now }
        ensures evens { place.new ≡ map (nearest_even self.now.step) self.now.readings.now }
        ensures gains { take (length self.now.readings.now) result ≡ map (gain self.now.step) self.now.readings.now }
    {
        let mut gains = [0; MOST_CELLS];
        for (i, &reading) in self.readings.iter().enumerate() {
            (place[i], gains[i]) = self.even(reading);
        }
        gains
    }

    // The number of a digit's parity that is nearest to a reading, and the size of what it leaves, from the nearest even number.
    fn turned(&self, reading: i32, even: i32, digit: u32) -> (i32, u64)
        requires small { unsigned_abs reading ≤ 2 ^ 30 }
        requires even { even ≡ nearest_even self.now.step reading }
        requires digit { digit < 2 }
        ensures number { result.0 ≡ nearest_of digit self.now.step reading }
        ensures size { result.1 ≡ unsigned_abs (residue_at self.now.step reading (nearest_of digit self.now.step reading)) }
    {
        let residue = residue_of(reading, self.step, even);
        let size = residue.unsigned_abs();
        if digit == 0 {
            return (even, size);
        }
        (odd_beside(residue, even), u64::from(self.step) - size)
    }

    // Turns the even number of each cell that has digit 1 in a word into the nearest odd one, and answers the squared distance.
    pub(super) fn turn_odd(&self, place: &mut [i32], word: u32) -> u64
        requires evens { place.old ≡ map (nearest_even self.now.step) self.now.readings.now }
        ensures point { place.new ≡ with_parities word self.now.step self.now.readings.now }
        ensures distance { result ≡ distance_of self.now.step self.now.readings.now (with_parities word self.now.step self.now.readings.now) }
    {
        let mut distance = 0;
        let mut rest = word;
        for (i, &reading) in self.readings.iter().enumerate() {
            let (number, size) = self.turned(reading, place[i], rest % 2);
            place[i] = number;
            distance += size * size;
            rest /= 2;
        }
        distance
    }
}

// The odd number next to an even one that leaves this residue, on the reading's side, and where nothing is left, nearer to zero. From 0 it
// is 1.
fn odd_beside(residue: i64, even: i32) -> i32
    requires small { unsigned_abs even ≤ 2 ^ 30 + 1 }
    ensures { result ≡ beside residue even }
{
    if residue > 0 || (residue == 0 && even <= 0) {
        even + 1
    } else {
        even - 1
    }
}

// The word of the parities of a point.
pub(super) fn parities(point: &[i32]) -> u32
    requires few { length point.now ≤ 32 }
    ensures { result ≡ parities_of point.now }
{
    point
        .iter()
        .rev()
        .fold(0, |word, x| (word << 1) | x.unsigned_abs() % 2)
}
