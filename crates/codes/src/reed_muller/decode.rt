ghost use Rattle.std.specs.Prelude.{◌≡◌, ◌^◌, ◌<◌, ◌≤◌, true, if◌then◌else◌, [], map, length, pos, MatchOption, slice_index_or, unsigned_abs};
ghost use Rattle.finders.specs.Choice.{first_best, no_smaller};
ghost use Rattle.finders.specs.Points.{within};
ghost use Rattle.codes.specs.ReedMuller.{row_word, complement, picked};

use super::super::gains::Gains;
use super::order::Order;
use finders::choice::{Greatest, first_best};

// The entry that is largest in size, the first of equals, with that size; none where there is no entry.
fn strongest(spectrum: &[i64]) -> Option<(usize, Greatest)>
    requires small { within (2 ^ 35) spectrum.now ≡ true }
    ensures { MatchOption result (spectrum.now ≡ []) (λ b. (b.0 ≡ first_best no_smaller (map unsigned_abs spectrum.now)) × (b.0 < length spectrum.now) × (b.1.0 ≡ pos (unsigned_abs (slice_index_or spectrum.now b.0 (pos 0))))) }
{
    first_best(
        spectrum
            .iter()
            .map(|correlation| Greatest(correlation.abs())),
    )
}

impl Order {
    // Word a, or its complement.
    #[tactic(auto, using(crate::specs::ReedMullerLaws::row_below, crate::specs::ReedMullerLaws::complement_is))]
    fn signed_word(self, a: usize, is_negative: bool) -> u32
        requires one_of_them { a < 2 ^ self.m }
        ensures { result ≡ (if is_negative then complement self.m a else row_word self.m a) }
    {
        let word = self.word(a);
        if is_negative {
            self.reverse(word)
        } else {
            word
        }
    }

    // The pick for the gains of a table, and its correlation. The table is left transformed.
    #[tactic(auto, using(crate::specs::SpectrumLaws::spectrum_small, crate::specs::ReedMullerLaws::picked_is))]
    fn pick(self, table: &mut [i64]) -> (u32, i64)
        requires as_wide { length table.old ≡ 2 ^ self.m }
        requires small { within (2 ^ 30) table.old ≡ true }
        ensures { result ≡ picked self.m table.old }
    {
        self.transform(table);
        // a table has an entry for each cell, and there is one
        let (a, Greatest(size)) = strongest(table).unwrap();
        (self.signed_word(a, table[a] < 0), size)
    }

    // The pick for gains, and its correlation.
    pub(super) fn decode(self, gains: Gains) -> (u32, i64)
        requires as_wide { length gains.all.now ≡ 2 ^ self.m }
        ensures { result ≡ picked self.m gains.entry.all.now }
    {
        let mut table = gains.table();
        let cells = gains.all.len();
        self.pick(&mut table[..cells])
    }
}
