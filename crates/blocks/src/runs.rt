ghost use Rattle.std.specs.Prelude.{◌≡◌, length, OnOk, OnErr};
ghost use Rattle.finders.specs.PointFinders.{OneSet};
ghost use Rattle.blocks.specs.Calls.{standing};
ghost use Rattle.blocks.specs.Block.{finder_of, meaning_of, Stands};
ghost use Rattle.blocks.specs.Runs.{crosscheck_checked, AnswersTheRun, AnsweredAlike, OnePointWhereOneHasTheTotal};

use super::block::Block;
use super::calls::{Answer, Call};
use finders::points::PointFinder;
use finders::refusals::Refusal;

/// Opens two blocks at one step, makes the same calls of both, and writes what each answered. Over finders of one set
/// they answer alike, but for the decided points, which are the same where no two points have the total. Refused,
/// with blocks and answers left as they were: 2 unless there is a place for each answer of both; else as opening the
/// one, and then as opening the other.
pub fn crosscheck<F: PointFinder, G: PointFinder>(
    one: &mut Block<F>,
    other: &mut Block<G>,
    step: u32,
    calls: &[Call<'_>],
    answers: &mut [Answer],
    others: &mut [Answer],
) -> Result<(), Refusal>
    ensures first_refusal { let both = crosscheck_checked (meaning_of one.old) (meaning_of other.old) in
        result ≡ both step calls.now (length answers.old) (length others.old) }
    ensures a_refusal_changes_no_block { OnErr result ((one.new ≡ one.old) × (other.new ≡ other.old)) }
    ensures a_refusal_leaves_the_answers { OnErr result ((answers.new ≡ answers.old) × (others.new ≡ others.old)) }
    ensures keeps_the_finders { (finder_of one.new ≡ finder_of one.old) × (finder_of other.new ≡ finder_of other.old) }
    ensures the_one_answers_the_run { OnOk result (
        AnswersTheRun (meaning_of one.old) step calls.now answers.new) }
    ensures the_other_answers_the_run { OnOk result (
        AnswersTheRun (meaning_of other.old) step calls.now others.new) }
    ensures the_calls_say_what_stands_in_the_one { OnOk result (
        Stands step (standing (meaning_of one.old) step calls.now) one.new) }
    ensures the_calls_say_what_stands_in_the_other { OnOk result (
        Stands step (standing (meaning_of other.old) step calls.now) other.new) }
    ensures finders_of_one_set_are_answered_alike { OnOk result (
        OneSet (meaning_of one.old) (meaning_of other.old) → AnsweredAlike answers.new others.new) }
    ensures one_point_where_one_has_the_total { OnOk result (OneSet (meaning_of one.old) (meaning_of other.old) →
        OnePointWhereOneHasTheTotal (meaning_of one.old) step calls.now answers.new others.new) }
{
    if answers.len() != calls.len() || others.len() != calls.len() {
        return Err(Refusal::Length);
    }
    // both are asked before either is opened, so that a refusal by the other leaves the one
    one.width_to_open(step)?;
    other.width_to_open(step)?;
    one.run(step, calls, answers)?;
    other.run(step, calls, others)
}
