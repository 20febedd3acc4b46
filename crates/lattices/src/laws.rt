ghost use Rattle.std.specs.Prelude.{◌≡◌, ℕ, ◌≤◌, List, map, length, ℤ};
ghost use Rattle.finders.specs.Points.{distance};
ghost use Rattle.finders.specs.Choice.{IsFirst, no_smaller};
ghost use Rattle.lattices.specs.LatticeD.{left_over, worst_cell, parity, d_pick};

// Theorems on the definitions that the contracts of the lattices rest on. These functions do nothing: what counts is
// that each is proved to meet its contract.

// The worst cell is one of the group, no residue is larger in size than its own, and all earlier ones are smaller.
pub fn worst_cell_is_the_first_of_the_largest()
    ensures first_of_the_largest { (q : ℕ) (rs : List ℤ) → 1 ≤ length rs → IsFirst no_smaller 0 (map (left_over q) rs) (worst_cell q rs) }
{}

// D's pick has an even sum, on exact levels too, where every residue is zero.
pub fn pick_of_d_has_an_even_sum()
    ensures even_sum { (q : ℕ) (rs : List ℤ) → 1 ≤ length rs → parity (d_pick rs q) ≡ 0 }
{}

// No point of even sum is nearer than D's pick, whatever the readings and the step.
pub fn no_point_of_even_sum_is_nearer()
    ensures none_is_nearer { (q : ℕ) (rs y : List ℤ) → 1 ≤ q → 1 ≤ length rs → length y ≡ length rs → parity y ≡ 0 → distance q rs (d_pick rs q) ≤ distance q rs y }
{}
