ghost use Rattle.std.specs.Prelude.{◌≡◌, ℕ, ◌+◌, ◌≤◌, Bool, true, ◌⊎◌, List, [], ◌∷◌, ◌++◌, length, ℤ, pos, ◌+ℤ◌, ◌≢◌, Ok, unsigned_abs};
ghost use Rattle.integers.specs.Nearest.{nearest, residue};
ghost use Rattle.finders.specs.Choice.{IsFirst, first_best};
ghost use Rattle.finders.specs.PointFinders.{Outcome, OneSet, find_answer, find_place};
ghost use Rattle.finders.specs.WordFinders.{Outcome as WordOutcome, find_answer as word_answer};
ghost use Rattle.finders.specs.Rounding.{turned};
ghost use Rattle.finders.specs.Words.{digit, signed, correlation};

use super::points::PointFinder;
use super::words::WordFinder;

// Theorems on the definitions that the contracts rest on, and on every implementation of an interface. These functions
// do nothing: what counts is that each is proved to meet its contract.

// Whatever a finder is asked: where it answers a distance, the point that it writes is a member of its set at just that
// distance, and no member is nearer; where it refuses, the place is as it was.
pub fn what_a_finder_finds_is_nearest<F: PointFinder>(finder: &F)
    ensures nearest_or_untouched { (rs place : List ℤ) (q : ℕ) → Outcome (F.meaning finder.now) rs q place (find_place (F.meaning finder.now) rs q place) (find_answer (F.meaning finder.now) rs q place) }
{}

// Two finders of one set, asked alike: where both answer a distance, it is one and the same.
pub fn finders_of_one_set_find_at_one_distance<F: PointFinder, G: PointFinder>(one: &F, other: &G)
    ensures one_distance { OneSet (F.meaning one.now) (G.meaning other.now) → (rs place : List ℤ) (q d e : ℕ) → find_answer (F.meaning one.now) rs q place ≡ Ok d → find_answer (G.meaning other.now) rs q place ≡ Ok e → d ≡ e }
{}

// Whatever a finder of words is asked: where it answers a word and a correlation, the word is a member of its set with just
// that correlation, and no member has a greater one.
pub fn what_a_word_finder_finds_is_best<F: WordFinder>(finder: &F)
    ensures best_or_refused { (gs : List ℤ) → WordOutcome (F.meaning finder.now) gs (word_answer (F.meaning finder.now) gs) }
{}

// The correlation is the sum of gain times sign over the cells: it is 0 for no cell, and one cell more adds its gain times the
// sign of its digit.
pub fn correlation_adds_gain_times_sign()
    ensures nothing_for_no_cell { (w : ℕ) → correlation w [] ≡ pos 0 }
    ensures one_cell_more { (w : ℕ) (gs : List ℤ) (g : ℤ) → correlation w (gs ++ g ∷ []) ≡ correlation w gs +ℤ signed (digit w (length gs)) g }
{}

// The first best of a list that is not empty, by an order that is total and carries along a chain, is an element of it that none is better
// than, and all before it are worse.
pub fn first_best_is_the_first_of_the_best<A>()
    ensures first_of_the_best { (good : A → A → Bool) → ((a b : A) → (good a b ≡ true) ⊎ (good b a ≡ true)) → ((a b c : A) → good a b ≡ true → good b c ≡ true → good a c ≡ true) → (d : A) (xs : List A) → 1 ≤ length xs → IsFirst good d xs (first_best good xs) }
{}

// The number that lies the other way from a reading leaves the rest of the step, and of all numbers but the nearest none
// leaves less.
pub fn the_other_way_is_second_nearest()
    ensures leaves_the_rest_of_the_step { (q : ℕ) (r : ℤ) → 1 ≤ q → unsigned_abs (residue q r (turned q r)) + unsigned_abs (residue q r (nearest q r)) ≡ q }
    ensures no_other_number_is_nearer { (q : ℕ) (r y : ℤ) → 1 ≤ q → (y ≢ nearest q r) → unsigned_abs (residue q r (turned q r)) ≤ unsigned_abs (residue q r y) }
{}
