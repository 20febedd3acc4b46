ghost use Rattle.std.specs.Prelude.{◌≡◌, ◌^◌, ◌≤◌, true, length, ◌+ℤ◌, ◌-ℤ◌};
ghost use Rattle.integers.specs.Sums.{zip_with};
ghost use Rattle.finders.specs.Points.{within};
ghost use Rattle.codes.specs.ReedMuller.{spectrum};

use super::order::Order;

// Puts the sums of the entries of two halves of a table into the lower half, and their differences into the upper. The upper half is
// written by index: of what a loop over `zip` writes, the checker knows nothing.
#[tactic(auto, using(crate::proofs::ButterflyLaws::partly_at, crate::proofs::ButterflyLaws::partly_all))]
fn butterflies(low: &mut [i64], high: &mut [i64])
    requires two_halves { length low.old ≡ length high.old }
    requires low_is_small { within (2 ^ 35) low.old ≡ true }
    requires high_is_small { within (2 ^ 35) high.old ≡ true }
    ensures sums { low.new ≡ zip_with (λ x y. x +ℤ y) low.old high.old }
    ensures differences { high.new ≡ zip_with (λ x y. x -ℤ y) low.old high.old }
{
    for (i, entry) in low.iter_mut().enumerate() {
        let sum = *entry + high[i];
        high[i] = *entry - high[i];
        *entry = sum;
    }
}

impl Order {
    // The fast Hadamard transform of a table of gains, in place: entry a becomes the correlation of word a.
    // `pick` requires the same of the table: no type holds it, since the numbers that the transform leaves are larger.
    #[tactic(auto, using(crate::proofs::TransformLaws::transforms))]
    pub(super) fn transform(self, table: &mut [i64])
        requires as_wide { length table.old ≡ 2 ^ self.m }
        requires small { within (2 ^ 30) table.old ≡ true }
        ensures each_entry_is_the_correlation_of_its_word { table.new ≡ spectrum self.m table.old }
    {
        let Some(half) = self.half() else {
            return;
        };
        let (low, high) = table.split_at_mut(half.cells());
        half.transform(low);
        half.transform(high);
        butterflies(low, high);
    }
}
