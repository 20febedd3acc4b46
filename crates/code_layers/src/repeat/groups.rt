ghost use Rattle.std.specs.Prelude.{◌≡◌, ◌*◌, ◌/◌, ◌^◌, ◌≤◌, true, length, take};
ghost use Rattle.integers.specs.Sums.{sumℤ};
ghost use Rattle.finders.specs.Points.{within};
ghost use Rattle.code_layers.specs.Repeat.{repeated as repeated_of, group_sums};
ghost use Rattle.code_layers.specs.Groups.{firsts as firsts_of};

use finders::points::MOST_CELLS;

// The cells of a word in groups of equally many.
#[derive(Clone, Copy)]
pub(super) struct Groups {
    pub(super) size: usize,
    pub(super) count: usize,
    ghost some_cell: { 1 ≤ size },
    ghost some_group: { 1 ≤ count },
    ghost few: { size * count ≤ 32 },
}

// The sum of the gains of a group. A loop, since no bound is known of a chain's sum of signed numbers.
fn sum(gains: &[i32]) -> i32
    requires small { within (2 ^ 30 / length gains.now) gains.now ≡ true }
    ensures { result ≡ sumℤ gains.now }
{
    let mut sum = 0;
    for gain in gains {
        sum += *gain;
    }
    sum
}

impl Groups {
    // The sums of the groups, at the head of an array of fixed length, since the library allocates nothing.
    pub(super) fn sums(self, gains: &[i32]) -> [i32; MOST_CELLS]
        requires all { length gains.now ≡ self.size * self.count }
        requires small { within (2 ^ 30 / self.size) gains.now ≡ true }
        ensures { take self.count result ≡ group_sums self.size self.count gains.now }
    {
        let mut sums = [0; MOST_CELLS];
        for (i, group) in gains.chunks(self.size).enumerate() {
            sums[i] = sum(group);
        }
        sums
    }

    // The word with each digit of another in each cell of its group.
    pub(super) fn repeated(self, word: u32) -> u32
        ensures { result ≡ repeated_of self.size self.count word }
    {
        // in 64 bits, since a group may have all 32 cells
        let word = u64::from(word);
        let ones = (1 << self.size) - 1;
        let all = (0..self.count)
            .rev()
            .fold(0, |all, i| (all << self.size) | (word >> i) % 2 * ones);
        all as u32
    }

    // The word of the first digits of the groups.
    pub(super) fn firsts(self, word: u32) -> u32
        ensures { result ≡ firsts_of self.size self.count word }
    {
        (0..self.count).rev().fold(0, |firsts, i| (firsts << 1) | (word >> (i * self.size)) % 2)
    }
}
