ghost use Rattle.std.specs.Prelude.{◌≡◌, ℕ, ◌+◌, ◌*◌, ◌/◌, ◌^◌, ◌<◌, ◌⊎◌, List, map, length, take, drop, ℤ, pos, ◌+ℤ◌, bit_xor, slice_index, slice_index_or};
ghost use Rattle.finders.specs.Choice.{IsFirst, no_less};
ghost use Rattle.finders.specs.WordFinders.{Same};
ghost use Rattle.finders.specs.Words.{digit, signed, correlation};
ghost use Rattle.code_layers.specs.Repeat.{repeated, group_sums, repeated_words};
ghost use Rattle.code_layers.specs.Join.{joined};
ghost use Rattle.code_layers.specs.Parts.{front, back};
ghost use Rattle.code_layers.specs.Glue.{glue_sum, negated, sum_numbers, score, best_sum, glued};
ghost use Rattle.code_layers.specs.Shorten.{with_last, shortened};

use finders::words::WordFinder;

// Theorems on the definitions that the contracts of the layers rest on. These functions do nothing: what counts is that each is
// proved to meet its contract.

// A repeated word has at each cell of a group the digit of the group, and no digit beyond.
pub fn repeated_words_have_each_digit_so_often()
    ensures digits_are_those_of_the_groups { (a n v i : ℕ) → i < a * n → digit (repeated a n v) i ≡ digit v (i / a) }
    ensures has_no_digit_beyond { (a n v : ℕ) → repeated a n v < 2 ^ (a * n) }
{}

// The correlation of a repeated word is that of the word below with the sums of the groups.
pub fn repeated_words_correlate_as_those_below()
    ensures correlates_with_the_sums { (a n v : ℕ) (gs : List ℤ) → length gs ≡ a * n → correlation (repeated a n v) gs ≡ correlation v (group_sums a n gs) }
{}

// The first n digits of a word and those behind them make the word, and each digit stands in its place in one of the two.
pub fn front_and_back_make_the_word()
    ensures make_the_word { (n w : ℕ) → back n w * 2 ^ n + front n w ≡ w }
    ensures front_has_none_beyond { (n w : ℕ) → front n w < 2 ^ n }
    ensures back_has_none_beyond { (n k w : ℕ) → w < 2 ^ (n + k) → back n w < 2 ^ k }
    ensures digits_of_the_front { (n w i : ℕ) → i < n → digit (front n w) i ≡ digit w i }
    ensures digits_of_the_back { (n w i : ℕ) → digit (back n w) i ≡ digit w (n + i) }
{}

// A word that is made of two has them as its front and its back.
pub fn a_joined_word_has_its_parts()
    ensures low_is_the_front { (high n low : ℕ) → low < 2 ^ n → front n (high * 2 ^ n + low) ≡ low }
    ensures high_is_the_back { (high n low : ℕ) → low < 2 ^ n → back n (high * 2 ^ n + low) ≡ high }
{}

// The correlation of a word is that of its front with the first n gains and that of its back with the others, added.
pub fn joined_correlations_add()
    ensures adds_those_of_the_parts { (n w : ℕ) (gs : List ℤ) → correlation w gs ≡ correlation (front n w) (take n gs) +ℤ correlation (back n w) (drop n gs) }
{}

// The sum with number j is the XOR of those glue words whose bit in j is 1: number 0 has no word, the power of two of a word's bit has
// that word alone, and the XOR of two numbers has the XOR of their sums.
pub fn sums_are_of_the_words_whose_bits_are_set()
    ensures zero_has_no_word { (ws : List ℕ) → glue_sum ws 0 ≡ 0 }
    ensures a_bit_has_its_word { (ws : List ℕ) (b : ℕ) → b < length ws → glue_sum ws (2 ^ b) ≡ slice_index ws b }
    ensures xor_has_the_xor { (ws : List ℕ) (i j : ℕ) → glue_sum ws (bit_xor i j) ≡ bit_xor (glue_sum ws i) (glue_sum ws j) }
{}

// A word that is moved by p has the correlation that the word itself has where the gain is negated at each digit 1 of p.
pub fn moved_words_correlate_with_negated_gains()
    ensures same_correlation { (p c : ℕ) (gs : List ℤ) → correlation (bit_xor p c) gs ≡ correlation c (negated p gs) }
    ensures as_many_gains { (p : ℕ) (gs : List ℤ) → length (negated p gs) ≡ length gs }
    ensures gains_by_sign { (p i : ℕ) (gs : List ℤ) → i < length gs → slice_index_or (negated p gs) i (pos 0) ≡ signed (digit p i) (slice_index_or gs i (pos 0)) }
{}

// The sum whose best word wins is the first of the greatest, whatever is picked below.
pub fn best_sum_is_the_first_of_the_greatest()
    ensures first_of_the_greatest { (ws : List ℕ) (pick : List ℤ → ℕ) (gs : List ℤ) → IsFirst no_less (pos 0) (map (score ws pick gs) (sum_numbers ws)) (best_sum ws pick gs) }
{}

// A word of n cells is what is left of two words of n + 1 cells: of itself, and of itself with a last digit 1.
pub fn two_words_are_shortened_to_one()
    ensures the_word_itself { (n w : ℕ) → w < 2 ^ n → front n w ≡ w }
    ensures with_a_last_digit { (n w : ℕ) → w < 2 ^ n → front n (w + 2 ^ n) ≡ w }
    ensures no_other { (n v : ℕ) → v < 2 ^ (n + 1) → (v ≡ front n v) ⊎ (v ≡ front n v + 2 ^ n) }
{}

// With a gain of 0 behind the gains, the last cell of a word adds nothing to the correlation.
pub fn a_deleted_cell_adds_nothing()
    ensures same_without_it { (w : ℕ) (gs : List ℤ) → correlation w (with_last gs) ≡ correlation (front (length gs) w) gs }
{}

// A layer over finders that mean the same means the same: so what the contracts of the building calls say of each layer, they say of the
// whole pile.
pub fn layers_over_the_same_mean_the_same<F: WordFinder, G: WordFinder>(one: &F, like: &G)
    ensures repeated { (a : ℕ) → Same (F.meaning one.now) (G.meaning like.now) → Same (repeated_words a (F.meaning one.now)) (repeated_words a (G.meaning like.now)) }
    ensures glued { (ws : List ℕ) → Same (F.meaning one.now) (G.meaning like.now) → Same (glued ws (F.meaning one.now)) (glued ws (G.meaning like.now)) }
    ensures shortened { Same (F.meaning one.now) (G.meaning like.now) → Same (shortened (F.meaning one.now)) (shortened (G.meaning like.now)) }
{}

// The same of two finders that are joined.
pub fn joins_of_the_same_mean_the_same<F: WordFinder, G: WordFinder, H: WordFinder, K: WordFinder>(
    one: &F,
    like: &G,
    other: &H,
    like_the_other: &K,
)
    ensures joined { Same (F.meaning one.now) (G.meaning like.now) → Same (H.meaning other.now) (K.meaning like_the_other.now) → Same (joined (F.meaning one.now) (H.meaning other.now)) (joined (G.meaning like.now) (K.meaning like_the_other.now)) }
{}
