ghost use Rattle.std.specs.Prelude.{◌≡◌, ℕ, ◌+◌, ◌-◌, ◌*◌, ◌%◌, ◌^◌, ◌<◌, ◌≤◌, true, ◌↔◌, List, [], ◌∷◌, ◌++◌, map, length, take, drop, ℤ, pos, ◌+ℤ◌, ◌-ℤ◌, ◌*ℤ◌, ◌≤ℤ◌, Ok, slice_index_or, unsigned_abs};
ghost use Rattle.integers.specs.Nearest.{residue};
ghost use Rattle.integers.specs.Sums.{sumℤ, plus, zeros};
ghost use Rattle.finders.specs.Choice.{IsFirst, no_larger};
ghost use Rattle.finders.specs.Points.{distance, within};
ghost use Rattle.finders.specs.PointFinders.{Member, OneSet, Same, shape_of};
ghost use Rattle.finders.specs.WordFinders.{Same as SameWords};
ghost use Rattle.finders.specs.Words.{digit, correlation};
ghost use Rattle.codes.specs.EvenWeight.{even_weight};
ghost use Rattle.lattices.specs.LatticeD.{lattice_d};
ghost use Rattle.lattice_layers.specs.ConstructionA.{nearest_even, nearest_odd, nearest_of, gain, parities, with_parities, construction_a};
ghost use Rattle.lattice_layers.specs.Scale.{times, scaled};
ghost use Rattle.lattice_layers.specs.Join.{joined};
ghost use Rattle.lattice_layers.specs.Rows.{row_sum, all_as_wide, largest, reach};
ghost use Rattle.lattice_layers.specs.Glue.{taken_off, sum_numbers, score, best_sum, glued};
ghost use Rattle.lattice_layers.specs.E8.{e8_by_glue, e8_by_words};
ghost use Rattle.lattice_layers.specs.E8Laws.{InE8, one_cell_twice, half_ones};

use finders::points::PointFinder;
use finders::words::WordFinder;

// Theorems on the definitions that the contracts of the layers rest on. These functions do nothing: what counts is that each is
// proved to meet its contract.

// Of even numbers none is nearer to a reading than the nearest even number, and of those as near none is smaller in size.
pub fn no_even_number_is_nearer()
    ensures is_even { (q : ℕ) (r : ℤ) → unsigned_abs (nearest_even q r) % 2 ≡ 0 }
    ensures no_even_number_is_nearer { (q : ℕ) (r y : ℤ) → 1 ≤ q → unsigned_abs y % 2 ≡ 0 → unsigned_abs (residue q r (nearest_even q r)) ≤ unsigned_abs (residue q r y) }
    ensures a_tie_goes_towards_zero { (q : ℕ) (r y : ℤ) → 1 ≤ q → unsigned_abs y % 2 ≡ 0 → unsigned_abs (residue q r y) ≤ unsigned_abs (residue q r (nearest_even q r)) → unsigned_abs (nearest_even q r) ≤ unsigned_abs y }
{}

// The same of odd numbers; of the two that are as near to 0 the nearest odd number is 1.
pub fn no_odd_number_is_nearer()
    ensures is_odd { (q : ℕ) (r : ℤ) → unsigned_abs (nearest_odd q r) % 2 ≡ 1 }
    ensures no_odd_number_is_nearer { (q : ℕ) (r y : ℤ) → 1 ≤ q → unsigned_abs y % 2 ≡ 1 → unsigned_abs (residue q r (nearest_odd q r)) ≤ unsigned_abs (residue q r y) }
    ensures a_tie_goes_towards_zero { (q : ℕ) (r y : ℤ) → 1 ≤ q → unsigned_abs y % 2 ≡ 1 → unsigned_abs (residue q r y) ≤ unsigned_abs (residue q r (nearest_odd q r)) → unsigned_abs (nearest_odd q r) ≤ unsigned_abs y }
    ensures leaves_the_rest_of_the_step { (q : ℕ) (r : ℤ) → 1 ≤ q → unsigned_abs (residue q r (nearest_odd q r)) + unsigned_abs (residue q r (nearest_even q r)) ≡ q }
    ensures of_zero_it_is_one { (q : ℕ) → 1 ≤ q → nearest_odd q (pos 0) ≡ pos 1 }
{}

// The word of a point has digit 1 where the coordinate is odd, and the point of a word the nearest number of each digit's parity.
pub fn digits_are_parities()
    ensures digits_of_the_word { (xs : List ℤ) (i : ℕ) → i < length xs → digit (parities xs) i ≡ unsigned_abs (slice_index_or xs i (pos 0)) % 2 }
    ensures numbers_of_the_point { (w q : ℕ) (rs : List ℤ) (i : ℕ) → i < length rs → slice_index_or (with_parities w q rs) i (pos 0) ≡ nearest_of (digit w i) q (slice_index_or rs i (pos 0)) }
    ensures has_the_parities { (w q : ℕ) (rs : List ℤ) → w < 2 ^ length rs → parities (with_parities w q rs) ≡ w }
{}

// Gains are no larger in size than the step. Of the points with the parities of a word none is nearer than that of the nearest numbers.
// Twice its distance and the step times the correlation of the word with the gains add to what does not depend on the word: so the word of
// greatest correlation has the nearest point.
pub fn the_best_word_has_the_nearest_point()
    ensures gains_keep_within_the_step { (q : ℕ) (rs : List ℤ) → 1 ≤ q → within q (map (gain q) rs) ≡ true }
    ensures none_is_nearer { (w q : ℕ) (rs y : List ℤ) → 1 ≤ q → length y ≡ length rs → parities y ≡ w → distance q rs (with_parities w q rs) ≤ distance q rs y }
    ensures distance_and_correlation_add_up { (w q : ℕ) (rs : List ℤ) → 1 ≤ q → pos (2 * distance q rs (with_parities w q rs)) +ℤ pos q *ℤ correlation w (map (gain q) rs) ≡ pos (2 * distance q rs (map (nearest_even q) rs)) +ℤ pos q *ℤ sumℤ (map (gain q) rs) }
    ensures more_is_nearer { (v w q : ℕ) (rs : List ℤ) → 1 ≤ q → correlation v (map (gain q) rs) ≤ℤ correlation w (map (gain q) rs) → distance q rs (with_parities w q rs) ≤ distance q rs (with_parities v q rs) }
{}

// Construction A over finders of words that mean the same means the same: so what the contract of `ConstructionA::new` says of it, it says
// of the whole pile.
pub fn constructions_over_the_same_mean_the_same<F: WordFinder, G: WordFinder>(one: &F, like: &G)
    ensures construction { SameWords (F.meaning one.now) (G.meaning like.now) → Same (construction_a (F.meaning one.now)) (construction_a (G.meaning like.now)) }
{}

// A point that is scaled by k is as far from the readings at the step q as the point itself is at the step k * q.
pub fn scaled_points_are_as_far_as_those_below()
    ensures as_far_at_the_step_below { (k q : ℕ) (rs p : List ℤ) → distance q rs (times k p) ≡ distance (k * q) rs p }
{}

// The distance of a point is that of its first n coordinates from the first n readings and that of the others, added.
pub fn joined_distances_add()
    ensures adds_those_of_the_parts { (q n : ℕ) (rs x : List ℤ) → distance q rs x ≡ distance q (take n rs) (take n x) + distance q (drop n rs) (drop n x) }
{}

// A point that is made of two has them as its parts, and the parts of a point make it.
pub fn a_joined_point_has_its_parts()
    ensures first_is_the_front { (x y : List ℤ) → take (length x) (x ++ y) ≡ x }
    ensures second_is_the_back { (x y : List ℤ) → drop (length x) (x ++ y) ≡ y }
    ensures parts_make_the_point { (n : ℕ) (x : List ℤ) → take n x ++ drop n x ≡ x }
{}

// The sum with number j is that of those rows whose bit in j is 1: number 0 has no row, the power of two of a row's bit has that row
// alone, and a bit more adds its row.
pub fn sums_are_of_the_rows_whose_bits_are_set()
    ensures zero_has_no_row { (n : ℕ) (rows : List (List ℤ)) → row_sum n rows 0 ≡ zeros n }
    ensures a_bit_has_its_row { (n b : ℕ) (rows : List (List ℤ)) → all_as_wide n rows ≡ true → b < length rows → row_sum n rows (2 ^ b) ≡ slice_index_or rows b [] }
    ensures a_bit_more_adds_its_row { (n j b : ℕ) (rows : List (List ℤ)) → all_as_wide n rows ≡ true → b < length rows → digit j b ≡ 0 → row_sum n rows (j + 2 ^ b) ≡ plus (row_sum n rows j) (slice_index_or rows b []) }
{}

// A point c that is moved by p is as far from the readings as c itself is from the readings with q times p taken off.
pub fn moved_points_are_as_far_as_from_readings_with_the_sum_taken_off()
    ensures same_distance { (q : ℕ) (rs p c : List ℤ) → distance q rs (plus p c) ≡ distance q (taken_off q p rs) c }
    ensures as_many_readings { (q : ℕ) (rs p : List ℤ) → length p ≡ length rs → length (taken_off q p rs) ≡ length rs }
    ensures readings_one_by_one { (q i : ℕ) (rs p : List ℤ) → i < length rs → i < length p → slice_index_or (taken_off q p rs) i (pos 0) ≡ slice_index_or rs i (pos 0) -ℤ pos q *ℤ slice_index_or p i (pos 0) }
{}

// The sum whose nearest point wins is the first of the least, whatever is picked below.
pub fn best_sum_is_the_first_of_the_least()
    ensures first_of_the_least { (rows : List (List ℤ)) (n : ℕ) (pick : List ℤ → ℕ → List ℤ) (rs : List ℤ) (q : ℕ) → IsFirst no_larger 0 (map (score rows n pick rs q) (sum_numbers rows)) (best_sum rows n pick rs q) }
{}

// The reach of rows adds for each row the least limit of its sizes, and no sum moves a coordinate by more: so the readings that a glue
// takes, with any sum taken off, keep within the limit l of what is below, at each step up to its limit t.
pub fn no_sum_goes_beyond_the_reach()
    ensures sums_keep_within { (n : ℕ) (rows : List (List ℤ)) (j : ℕ) → within (reach rows) (row_sum n rows j) ≡ true }
    ensures without_a_row_it_is_zero { reach [] ≡ 0 }
    ensures a_row_adds_its_largest { (row : List ℤ) (rows : List (List ℤ)) → reach (row ∷ rows) ≡ largest row + reach rows }
    ensures largest_is_a_limit { (row : List ℤ) → within (largest row) row ≡ true }
    ensures no_limit_is_less { (limit : ℕ) (row : List ℤ) → within limit row ≡ true → largest row ≤ limit }
    ensures readings_keep_within { (n l t q j : ℕ) (rows : List (List ℤ)) (rs : List ℤ) → 1 ≤ l - reach rows * t → q ≤ t → within (l - reach rows * t) rs ≡ true → within l (taken_off q (row_sum n rows j) rs) ≡ true }
{}

// With no row, a glue has the points of what is below.
pub fn no_row_leaves_the_set<F: PointFinder>(below: &F)
    ensures same_points { OneSet (glued [] (F.meaning below.now)) (F.meaning below.now) }
{}

// A layer over finders that mean the same means the same: so what the contracts of the building calls say of each layer, they say of the
// whole pile.
pub fn layers_over_the_same_mean_the_same<F: PointFinder, G: PointFinder>(one: &F, like: &G)
    ensures scaled { (k : ℕ) → Same (F.meaning one.now) (G.meaning like.now) → Same (scaled k (F.meaning one.now)) (scaled k (G.meaning like.now)) }
    ensures glued { (rows : List (List ℤ)) → Same (F.meaning one.now) (G.meaning like.now) → Same (glued rows (F.meaning one.now)) (glued rows (G.meaning like.now)) }
{}

// The same of two finders that are joined.
pub fn joins_of_the_same_mean_the_same<
    F: PointFinder,
    G: PointFinder,
    H: PointFinder,
    K: PointFinder,
>(one: &F, like: &G, other: &H, like_the_other: &K)
    ensures joined { Same (F.meaning one.now) (G.meaning like.now) → Same (H.meaning other.now) (K.meaning like_the_other.now) → Same (joined (F.meaning one.now) (H.meaning other.now)) (joined (G.meaning like.now) (K.meaning like_the_other.now)) }
{}

// The points whose parities form a word of even weight are those of D.
pub fn construction_a_of_even_weight_has_the_points_of_d()
    ensures points_of_d { (n : ℕ) → OneSet (construction_a (even_weight n)) (lattice_d n) }
{}

// Both forms of E8 are fit, with these shapes.
pub fn both_forms_of_e8_are_fit()
    ensures shape_by_glue { shape_of e8_by_glue ≡ Ok (record { width = 8; reading_limit = 2 ^ 30 - 2 ^ 19; step_limit = 2 ^ 19 }) }
    ensures shape_by_words { shape_of e8_by_words ≡ Ok (record { width = 8; reading_limit = 2 ^ 30; step_limit = 2 ^ 20 }) }
{}

// E8 by glue has the points of eight coordinates, all even or all odd, whose sum is a multiple of four. They all are points of E8 by
// words, which has more.
pub fn points_of_e8()
    ensures even_or_odd_with_a_sum_by_four { (x : List ℤ) → Member e8_by_glue x ↔ InE8 x }
    ensures all_are_points_by_words { (x : List ℤ) → Member e8_by_glue x → Member e8_by_words x }
    ensures one_cell_twice_is_by_words_only { Member e8_by_words one_cell_twice × (Member e8_by_glue one_cell_twice → ⊥) }
    ensures half_ones_are_by_words_only { Member e8_by_words half_ones × (Member e8_by_glue half_ones → ⊥) }
{}
