ghost use Rattle.std.specs.Prelude.{◌≡◌, ◌-◌, length, slice_get, Some, OnOk, MatchResult};
ghost use Rattle.finders.specs.Meanings.{answered, and_then};
ghost use Rattle.finders.specs.PointFinders.{width_of};
ghost use Rattle.blocks.specs.declared.calls.Call.TheVariants as call;
ghost use Rattle.blocks.specs.Senses.{IsLeastTotal};
ghost use Rattle.blocks.specs.Calls.{standing, decide_checked, decided_total};
ghost use Rattle.blocks.specs.Block.{meaning_of, Stands};
ghost use Rattle.blocks.specs.Runs.{AnswersDecide, run_checked};

use blocks::block::Block;
use blocks::calls::{Answer, Call};
use finders::points::PointFinder;
use finders::refusals::Refusal;

/// Runs calls and decides once more: the calls say what stands, and the point has the least total over it.
pub fn run_and_decide<F: PointFinder>(
    block: &mut Block<F>,
    step: u32,
    calls: &[Call<'_>],
    answers: &mut [Answer],
    place: &mut [i32],
) -> Result<u64, Refusal>
    ensures first_refusal { let M = meaning_of block.old in let S = standing M step calls.now in
        let opening = run_checked M step calls.now (length answers.old) in
        let granted = and_then opening (decide_checked M S (length place.old)) in
        result ≡ answered granted (decided_total M step S.senses) }
    ensures what_stands { OnOk result (Stands step (standing (meaning_of block.old) step calls.now) block.new) }
    ensures least_total { let M = meaning_of block.old in MatchResult result
        (λ t. IsLeastTotal M step (standing M step calls.now).senses place.new t)
        (λ e. place.new ≡ place.old) }
{
    block.run(step, calls, answers)?;
    block.decide(place)
}

/// Runs calls of which the last is a decide into a place that fits: it has the least total over what stands at the
/// end.
#[tactic(auto, using(crate::proofs::LastDecide::last_decide))]
pub fn run_up_to_a_decide<F: PointFinder>(
    block: &mut Block<F>,
    step: u32,
    calls: &[Call<'_>],
    answers: &mut [Answer],
) -> Result<(), Refusal>
    ensures first_refusal { result ≡ run_checked (meaning_of block.old) step calls.now (length answers.old) }
    ensures what_stands { OnOk result (Stands step (standing (meaning_of block.old) step calls.now) block.new) }
    ensures last_decide { let M = meaning_of block.old in let last = length calls.now - 1 in
        OnOk result (slice_get calls.now last ≡ Some (call.Decide (width_of M)) →
        AnswersDecide M step (standing M step calls.now) (slice_get answers.new last)) }
{
    block.run(step, calls, answers)
}
