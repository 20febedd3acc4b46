ghost use Rattle.std.specs.Prelude.{◌≡◌, ◌+◌, ◌-◌, ◌^◌, ◌<◌, ◌≤◌, ◌↔◌, ◌⊎◌, true, false, IsTrue, MatchOption, MatchResult};
ghost use Rattle.finders.specs.declared.refusals.Refusal.TheVariants.{Width};
ghost use Rattle.codes.specs.Codes.{shape};
ghost use Rattle.codes.specs.ReedMuller.{rm_sized, row_word, Codeword};

use super::super::shapes::shape;
use finders::refusals::Refusal;
use finders::words::WordShape;

// The largest m of 2^m cells.
const MOST_M: u32 = 5;

// The m of a code of 2^m cells, of which a word has room for the digits. That a word has no digit beyond them, three methods require: as a
// type of its own it would be taken apart at once, to be shifted and cut.
#[derive(Clone, Copy)]
pub(super) struct Order {
    m: u32,
    ghost small: { m ≤ 5 },
}

impl Order {
    pub(super) fn new(m: u32) -> Result<Order, Refusal>
        ensures { MatchResult result (λ o. (o.m ≡ m) × (rm_sized m ≡ true)) (λ e. (e ≡ Width) × (rm_sized m ≡ false)) }
    {
        if m < 1 || m > MOST_M {
            return Err(Refusal::Width);
        }
        Ok(Order { m })
    }

    #[tactic(auto, using(std::proofs::Common::pow_mono))]
    pub(super) fn cells(self) -> usize
        ensures power { result ≡ 2 ^ self.m }
        ensures few { result ≤ 32 }
    {
        1 << self.m
    }

    pub(super) fn shape(self) -> WordShape
        ensures cells { result ≡ shape (2 ^ self.m) }
        ensures few { result.width ≤ 32 }
    {
        shape(self.cells())
    }

    // The order of half the cells; none where there is one cell.
    pub(super) fn half(self) -> Option<Order>
        ensures { MatchOption result (self.m ≡ 0) (λ h. self.m ≡ h.m + 1) }
    {
        let m = self.m.checked_sub(1)?;
        Some(Order { m })
    }

    // A word with each digit reversed. What the `as` narrows is proved to fit.
    pub(super) fn reverse(self, word: u32) -> u32
        requires as_wide { word < 2 ^ (2 ^ self.m) }
        ensures { result ≡ 2 ^ (2 ^ self.m) - 1 - word }
    {
        ((1u64 << self.cells()) - 1 - u64::from(word)) as u32
    }

    // Word a. Its lower half is the word of a's lower digits; so is its upper half, reversed where a's highest digit is 1.
    #[tactic(auto, using(crate::proofs::HalvesLaws::joins))]
    pub(super) fn word(self, a: usize) -> u32
        requires one_of_them { a < 2 ^ self.m }
        ensures { result ≡ row_word self.m a }
    {
        let Some(half) = self.half() else {
            return 0;
        };
        let rows = half.cells();
        let low = half.word(a % rows);
        let high = if a < rows { low } else { half.reverse(low) };
        low | (high << rows)
    }

    // Whether the upper half of a word is its lower half, or that reversed.
    fn are_alike(self, low: u32, high: u32) -> bool
        requires as_wide { low < 2 ^ (2 ^ self.m) }
        ensures { IsTrue result ↔ ((high ≡ low) ⊎ (high ≡ 2 ^ (2 ^ self.m) - 1 - low)) }
    {
        high == low || high == self.reverse(low)
    }

    // Whether a word is one of the words or complements: its halves are alike, and the lower one is one of those of half the cells.
    #[tactic(auto, using(crate::proofs::HalvesLaws::half_few))]
    pub(super) fn is_codeword(self, word: u32) -> bool
        requires as_wide { word < 2 ^ (2 ^ self.m) }
        ensures { IsTrue result ↔ (Codeword self.m word) }
    {
        let Some(half) = self.half() else {
            return true;
        };
        let cells = half.cells();
        let low = word % (1 << cells);
        let high = word >> cells;
        half.are_alike(low, high) && half.is_codeword(low)
    }
}
