ghost use Rattle.std.specs.Prelude.{◌≡◌, ℕ, ◌+◌, ◌-◌, ◌*◌, ◌<◌, ◌≤◌, ◌⊎◌, ℤ, pos, Ok};
ghost use Rattle.std.specs.Prelude.{List, [], ◌∷◌, ◌++◌, length, map, take, reverse, slice_index_or};
ghost use Rattle.std.specs.List.{AllByRecursion};
ghost use Rattle.std.specs.List.Sorted.{IsPermutation};
ghost use Rattle.integers.specs.Sums.{sumℤ, zeros};
ghost use Rattle.finders.specs.Points.{distance};
ghost use Rattle.finders.specs.PointFinders.{OneSet, Same, width_of};
ghost use Rattle.blocks.specs.Senses.{total, sums, squares, energy, IsLeastTotal, IsAttainedAtMostOnce};
ghost use Rattle.blocks.specs.Senses.{Standing, none_standing, count_of};
ghost use Rattle.blocks.specs.Tally.{AreSenses};
ghost use Rattle.blocks.specs.Calls.{depth, open_checked, decided_point, decided_total, padded};
ghost use Rattle.blocks.specs.Calls.{after_call, standing, answers_to};
ghost use Rattle.blocks.specs.CallLists.{SameCalls, HasNoClear, EndsAfterAClear, senses_of_width, HasSmallReadings};
ghost use Rattle.blocks.specs.Block.{meaning_of, IsClosed, Stands};
ghost use Rattle.blocks.specs.Runs.{EachSenseIsGrantedUnlessFull, EachClearTellsHowManyStood};
ghost use Rattle.blocks.specs.Runs.{EachDecideHasTheLeastTotal, EachMisfitIsRefused};
ghost use Rattle.blocks.specs.Runs.{AnsweredAlike, OnePointWhereOneHasTheTotal};

use super::block::Block;
use super::calls::Call;
use finders::points::PointFinder;

// Theorems on the definitions that the contracts of the block rest on. These functions do nothing: what counts is
// that each is proved to meet its contract.

/// Any block is closed, or open at some step where some senses stand: so what the contracts say of these two cases is
/// said of every block.
#[tactic(auto, using(crate::proofs::SameBlock::closed_or_open))]
pub fn a_block_is_closed_or_open<F: PointFinder>(block: &Block<F>)
    ensures closed_or_open { ∥ IsClosed block.now ⊎ ((q : ℕ) × (S : Standing) × Stands q S block.now) ∥₁ }
{}

/// A block cannot tell apart senses of equal number, sums and energy: where the one stands, so does the other, and
/// whatever is promised holds of both.
pub fn senses_of_equal_sums_stand_alike<F: PointFinder>(block: &Block<F>)
    ensures stands_as_well { (q : ℕ) (S T : Standing) → let n = width_of (meaning_of block.now) in
        Stands q S block.now → AreSenses n T.senses → count_of T ≡ count_of S → sums n T.senses ≡ sums n S.senses →
        energy T.senses ≡ energy S.senses → Stands q T block.now }
{}

/// The total of a point is its squared distance from each sense, added over the senses, in whatever order they came.
#[tactic(auto, using(crate::proofs::SumLaws::total_in_any_order))]
pub fn the_total_is_added_over_the_senses()
    ensures nothing_for_no_sense { (q : ℕ) (x : List ℤ) → total q [] x ≡ 0 }
    ensures one_sense_more { (q : ℕ) (rs x : List ℤ) (ss : List (List ℤ)) →
        total q (rs ∷ ss) x ≡ distance q rs x + total q ss x }
    ensures order_does_not_count { (q : ℕ) (ss ts : List (List ℤ)) (x : List ℤ) →
        IsPermutation ss ts → total q ts x ≡ total q ss x }
{}

/// The sum of a cell is that of its readings.
#[tactic(auto, using(crate::proofs::SumLaws::sum_at))]
pub fn the_sums_are_of_the_readings_of_each_cell()
    ensures cell_by_cell { (n i : ℕ) (ss : List (List ℤ)) → AreSenses n ss → i < n →
        slice_index_or (sums n ss) i (pos 0) ≡ sumℤ (map (λ rs. slice_index_or rs i (pos 0)) ss) }
{}

/// With m senses, m times the total of a point and the squares of the sums are m times the energy and the squared
/// distance of the point from the sums at m times the step. So the nearer point to the sums has the smaller total.
pub fn the_nearer_point_to_the_sums_has_the_smaller_total()
    ensures balance { (n q : ℕ) (ss : List (List ℤ)) (x : List ℤ) → AreSenses n ss → length x ≡ n → let m = length ss in
        m * total q ss x + squares (sums n ss) ≡ m * energy ss + distance (m * q) (sums n ss) x }
    ensures nearer_is_less { (n q : ℕ) (ss : List (List ℤ)) (x y : List ℤ) → AreSenses n ss → 1 ≤ length ss →
        length x ≡ n → length y ≡ n →
        distance (length ss * q) (sums n ss) x ≤ distance (length ss * q) (sums n ss) y → total q ss x ≤ total q ss y }
{}

/// Over any finder, what is decided is a point of the set, and none has a smaller total.
pub fn the_decided_point_has_the_least_total<F: PointFinder>(finder: &F)
    ensures least_total { (q : ℕ) (ss : List (List ℤ)) → let M = F.meaning finder.now in
        open_checked M q ≡ Ok tt → AreSenses (width_of M) ss → 1 ≤ length ss → length ss ≤ depth M q →
        IsLeastTotal M q ss (decided_point M q ss) (decided_total M q ss) }
{}

/// None stands at an opening, and each call changes what stands as it says; what was before the last clear counts for
/// nothing; and since then those stand that were first, of the senses of fitting width, up to as many as the block
/// holds.
pub fn the_calls_say_which_senses_stand<F: PointFinder>(finder: &F)
    ensures none_at_an_opening { (q : ℕ) → standing (F.meaning finder.now) q [] ≡ none_standing }
    ensures one_call_more { (q : ℕ) (cs : List Call) (c : Call) → let M = F.meaning finder.now in
        standing M q (cs ++ c ∷ []) ≡ after_call M q (standing M q cs) c }
    ensures a_clear_ends_what_was_before { (q : ℕ) (cs ds : List Call) → let M = F.meaning finder.now in
        standing M q (cs ++ Call.Clear ∷ ds) ≡ standing M q ds }
    ensures a_last_clear_or_none { (cs : List Call) → HasNoClear cs ⊎ EndsAfterAClear cs }
    ensures the_first_of_fitting_width_stand { (q : ℕ) (cs : List Call) → HasNoClear cs →
        let M = F.meaning finder.now in
        (standing M q cs).senses ≡ reverse (take (depth M q) (senses_of_width (width_of M) cs)) }
    ensures no_more_than_the_block_holds { (q : ℕ) (cs : List Call) → let M = F.meaning finder.now in
        count_of (standing M q cs) ≤ depth M q }
{}

/// A point stands at the front of the answer that has it, with zeros behind it.
#[tactic(auto, using(crate::proofs::Padding::short_padded))]
pub fn an_answer_begins_with_its_point()
    ensures zeros_behind_the_point { (x : List ℤ) → length x ≤ 32 → padded x ≡ x ++ zeros (32 - length x) }
{}

/// Any calls, and not only those that a machine has room for, are answered as `Block::run` says, at a step at which
/// a block opens and with readings of 16 bits.
pub fn any_run_is_answered_as_promised<F: PointFinder>(finder: &F)
    ensures each_sense_is_granted_unless_full { (q : ℕ) (cs : List Call) → let M = F.meaning finder.now in
        EachSenseIsGrantedUnlessFull M q cs (answers_to M q cs) }
    ensures each_clear_tells_how_many_stood { (q : ℕ) (cs : List Call) → let M = F.meaning finder.now in
        EachClearTellsHowManyStood M q cs (answers_to M q cs) }
    ensures each_misfit_is_refused { (q : ℕ) (cs : List Call) → let M = F.meaning finder.now in
        EachMisfitIsRefused M cs (answers_to M q cs) }
    ensures each_decide_has_the_least_total { (q : ℕ) (cs : List Call) → let M = F.meaning finder.now in
        open_checked M q ≡ Ok tt → AllByRecursion HasSmallReadings cs →
        EachDecideHasTheLeastTotal M q cs (answers_to M q cs) }
{}

/// The same calls, from wherever their readings are lent, are answered alike: by one finder in all, by finders of one
/// set but for the points that are decided, and these are the same where no two points have the total.
pub fn same_calls_are_answered_alike<F: PointFinder, G: PointFinder>(one: &F, other: &G)
    ensures each_list_has_the_calls_of_itself { (cs : List Call) → SameCalls cs cs }
    ensures by_one_finder { (q : ℕ) (cs ds : List Call) → let M = F.meaning one.now in
        SameCalls cs ds → answers_to M q cs ≡ answers_to M q ds }
    ensures by_finders_of_one_set { let M = F.meaning one.now in let N = G.meaning other.now in
        OneSet M N → (q : ℕ) (cs ds : List Call) → open_checked M q ≡ Ok tt → open_checked N q ≡ Ok tt →
        AllByRecursion HasSmallReadings cs → SameCalls cs ds → AnsweredAlike (answers_to M q cs) (answers_to N q ds) }
    ensures one_point_where_one_has_the_total { let M = F.meaning one.now in let N = G.meaning other.now in
        OneSet M N → (q : ℕ) (cs ds : List Call) → open_checked M q ≡ Ok tt → open_checked N q ≡ Ok tt →
        AllByRecursion HasSmallReadings cs → SameCalls cs ds →
        OnePointWhereOneHasTheTotal M q cs (answers_to M q cs) (answers_to N q ds) }
{}

/// Over finders of one set, where the same senses stand, there is one least total, and one point where no two have
/// it; and the widths are one.
pub fn finders_of_one_set_have_one_least_total<F: PointFinder, G: PointFinder>(one: &F, other: &G)
    ensures one_width { let M = F.meaning one.now in let N = G.meaning other.now in
        OneSet M N → (q : ℕ) → open_checked M q ≡ Ok tt → open_checked N q ≡ Ok tt → width_of N ≡ width_of M }
    ensures one_total { let M = F.meaning one.now in let N = G.meaning other.now in
        OneSet M N → (q : ℕ) (ss : List (List ℤ)) (x y : List ℤ) (t u : ℕ) →
        IsLeastTotal M q ss x t → IsLeastTotal N q ss y u → t ≡ u }
    ensures one_point { let M = F.meaning one.now in let N = G.meaning other.now in
        OneSet M N → (q : ℕ) (ss : List (List ℤ)) (x y : List ℤ) (t u : ℕ) →
        IsLeastTotal M q ss x t → IsLeastTotal N q ss y u → IsAttainedAtMostOnce M q ss t → x ≡ y }
{}

/// Over finders that mean the same, one opens where the other does, and any calls have the same answers, points and
/// all.
pub fn finders_that_mean_the_same_are_answered_the_same<F: PointFinder, G: PointFinder>(
    one: &F,
    other: &G,
)
    ensures same_opening { let M = F.meaning one.now in let N = G.meaning other.now in
        Same M N → (q : ℕ) → open_checked M q ≡ open_checked N q }
    ensures same_answers { let M = F.meaning one.now in let N = G.meaning other.now in
        Same M N → (q : ℕ) (cs : List Call) → answers_to M q cs ≡ answers_to N q cs }
{}
