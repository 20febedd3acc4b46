ghost use Rattle.std.specs.Prelude.{◌≡◌, ℕ, ◌^◌, ◌<◌, ◌≤◌, List, map, length, ℤ, pos, ◌≤ℤ◌, slice_index, slice_index_or, unsigned_abs};
ghost use Rattle.std.specs.List.{ContainsAt as Has, AllByRecursion};
ghost use Rattle.finders.specs.Choice.{IsFirst, first_best, no_larger, no_less, no_smaller};
ghost use Rattle.finders.specs.Words.{digit, correlation};
ghost use Rattle.codes.specs.Digits.{word, reversed};
ghost use Rattle.codes.specs.EvenWeight.{weakest};
ghost use Rattle.codes.specs.Listed.{first_listed};
ghost use Rattle.codes.specs.ReedMuller.{parity, row_word, complement, spectrum, strongest};

// Theorems on the definitions that the contracts of the codes rest on. These functions do nothing: what counts is that each
// is proved to meet its contract.

// The word of a list of digits has just these digits, and none beyond.
pub fn a_word_has_its_digits()
    ensures has_these_digits { (ds : List ℕ) (i : ℕ) → AllByRecursion (λ d. d < 2) ds → i < length ds → digit (word ds) i ≡ slice_index ds i }
    ensures has_none_beyond { (ds : List ℕ) → AllByRecursion (λ d. d < 2) ds → word ds < 2 ^ length ds }
{}

// The weakest cell is one of the group, no gain is smaller in size than its own, and all earlier ones are larger.
pub fn weakest_cell_is_the_first_of_the_smallest()
    ensures first_of_the_smallest { (gs : List ℤ) → 1 ≤ length gs → IsFirst no_larger 0 (map unsigned_abs gs) (weakest gs) }
{}

// Word a of the Reed-Muller code has at cell i + 1 the parity of the ones in (a AND i), and its complement the other digit.
pub fn words_of_reed_muller_have_the_stated_digits()
    ensures digits_are_the_parities { (m a i : ℕ) → i < 2 ^ m → digit (row_word m a) i ≡ parity a i }
    ensures digits_of_complements_are_the_others { (m a i : ℕ) → i < 2 ^ m → digit (complement m a) i ≡ reversed (parity a i) }
{}

// The spectrum has one entry for each word, and entry a is the correlation of word a. The strongest word is one of them, no
// correlation is larger in size than its own, and all earlier ones are smaller.
pub fn strongest_word_is_the_first_of_the_largest()
    ensures one_entry_for_each_word { (m : ℕ) (gs : List ℤ) → length (spectrum m gs) ≡ 2 ^ m }
    ensures entries_are_correlations { (m a : ℕ) (gs : List ℤ) → a < 2 ^ m → slice_index_or (spectrum m gs) a (pos 0) ≡ correlation (row_word m a) gs }
    ensures first_of_the_largest { (m : ℕ) (gs : List ℤ) → IsFirst no_smaller 0 (map unsigned_abs (spectrum m gs)) (strongest m gs) }
{}

// The pick of listed words is one of them, no listed word has a greater correlation, and it is the word at the first index with the
// greatest.
pub fn first_listed_is_the_first_of_the_greatest()
    ensures first_of_the_greatest { (ws : List ℕ) (gs : List ℤ) → 1 ≤ length ws → IsFirst no_less (pos 0) (map (λ w. correlation w gs) ws) (first_best no_less (map (λ w. correlation w gs) ws)) }
    ensures is_listed { (ws : List ℕ) (gs : List ℤ) → 1 ≤ length ws → Has ws (first_listed ws gs) }
    ensures no_listed_word_is_better { (ws : List ℕ) (gs : List ℤ) → 1 ≤ length ws → (w : ℕ) → Has ws w → correlation w gs ≤ℤ correlation (first_listed ws gs) gs }
{}
