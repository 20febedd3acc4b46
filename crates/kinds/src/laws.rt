ghost use Rattle.std.specs.Prelude.{◌≡◌, ◌≢◌, ◌⊎◌, ℕ, ◌<◌, List, ℤ, Ok, Err};
ghost use Rattle.finders.specs.declared.refusals.Refusal.TheVariants.{Kind, Length};
ghost use Rattle.finders.specs.Meanings.{fitness_of};
ghost use Rattle.finders.specs.PointFinders.{Member, width_of};
ghost use Rattle.kinds.specs.Kinds.{set_of};

use lattice_layers::laws::points_of_e8;

// Theorems on the definition that the contract of `Lattice::of_kind` rests on. These functions do nothing: what counts
// is that each is proved to meet its contract.

/// A kind that is fit has as many cells as it is asked for; what it is refused for comes in this order.
#[tactic(auto, using(crate::proofs::Widths::as_many_cells))]
pub fn a_kind_is_fit_in_so_many_cells()
    ensures as_many_cells { (kind n : ℕ) → fitness_of (set_of kind n) ≡ Ok tt →
        width_of (set_of kind n) ≡ n }
    ensures an_unknown_kind_first { (kind n : ℕ) → (kind ≡ 0) ⊎ (4 < kind) →
        fitness_of (set_of kind n) ≡ Err Kind }
    ensures e8_then_of_other_than_eight_cells { (kind n : ℕ) → (kind ≡ 3) ⊎ (kind ≡ 4) → n ≢ 8 →
        fitness_of (set_of kind n) ≡ Err Length }
{}

/// Of some kinds the points are points of another as well: D in Z, and E8 by glue in E8 by words. So no total in the
/// other is larger.
pub fn some_kinds_are_part_of_others()
    ensures d_of_z { (n : ℕ) (x : List ℤ) → Member (set_of 2 n) x → Member (set_of 1 n) x }
    ensures e8_by_glue_of_e8_by_words { (n : ℕ) (x : List ℤ) → Member (set_of 3 n) x → Member (set_of 4 n) x }
{
    points_of_e8();
}
