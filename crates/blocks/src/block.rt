ghost use Rattle.std.specs.Prelude.{◌≡◌};
ghost use Rattle.blocks.specs.Opened.{IsClosedOrRepresents};

use super::calls::{Answer, Call, Decision, padded};
use super::opened::Opened;
use finders::points::{MOST_CELLS, PointFinder};
use finders::refusals::Refusal;

/// The most senses that stand at once.
pub const MOST_SENSES: u32 = 64;

// The largest size of the sum of so many readings of 16 bits.
const MOST_SUM: u32 = MOST_SENSES << 15;

/// A group of cells over a finder of points, closed or open at a step. While it is open it takes senses, adds them
/// up, and decides a point of least total: maximum likelihood over independent Gaussian noise. It holds the finder by
/// value, and allocates nothing.
#[derive(Drop)]
pub struct Block<F: PointFinder> {
    finder: F,
    opened: Option<Opened>,
    ghost closed_or_represents: { ∥ IsClosedOrRepresents (F.meaning finder) opened ∥₁ },
}

impl<F: PointFinder> Block<F> {
    ghost use Rattle.std.specs.Prelude.{◌↔◌, List, ℤ, length, Ok, Err, OnOk, OnErr};
    ghost use Rattle.finders.specs.declared.refusals.Refusal.TheVariants.{Closed, Full, Empty};
    ghost use Rattle.finders.specs.Meanings.{answered};
    ghost use Rattle.finders.specs.PointFinders.{width_of};
    ghost use Rattle.blocks.specs.Senses.{none_standing, count_of};
    ghost use Rattle.blocks.specs.Calls.{depth, open_checked, sense_answer, after_sense, clear_answer};
    ghost use Rattle.blocks.specs.Calls.{decide_answer, decide_place, DecideOutcome, decision_answer};
    ghost use Rattle.blocks.specs.Calls.{answer_to, closed_answer, IsRefused, after_call, answers_to, standing};
    ghost use Rattle.blocks.specs.Block.{finder_of, meaning_of, IsClosed, Stands, IfOpen};
    ghost use Rattle.blocks.specs.Runs.{run_checked, EachSenseIsGrantedUnlessFull, EachClearTellsHowManyStood};
    ghost use Rattle.blocks.specs.Runs.{EachDecideHasTheLeastTotal, EachMisfitIsRefused};

    /// A closed block over the finder, fit or not.
    pub fn new(finder: F) -> Block<F>
        ensures is_over_the_finder { finder_of result ≡ finder }
        ensures is_closed { IsClosed result }
    {
        Block {
            finder,
            opened: None,
        }
    }

    /// Opens the block at a step, be it closed or open: no sense stands then. Refused, first that applies: by the
    /// number of an unfit finder; 4 for a step below 1; 10 where 64 steps exceed the finder's step limit, or 64
    /// readings of the largest size, 2,097,152, its reading limit.
    pub fn open(&mut self, step: u32) -> Result<(), Refusal>
        ensures first_refusal { result ≡ open_checked (meaning_of self.old) step }
        ensures none_stands_when_opened { OnOk result (Stands step none_standing self.new) }
        ensures keeps_the_finder { finder_of self.new ≡ finder_of self.old }
        ensures a_refusal_changes_nothing { OnErr result (self.new ≡ self.old) }
    {
        let width = self.width_to_open(step)?;
        self.opened = Some(Opened::new(step, width));
        Ok(())
    }

    // How many cells there are, or what opening at this step is refused for.
    pub(super) fn width_to_open(&self, step: u32) -> Result<usize, Refusal>
        ensures { result ≡ answered (open_checked (meaning_of self.now) step) (width_of (meaning_of self.now)) }
    {
        let shape = self.finder.shape()?;
        if step < 1 {
            return Err(Refusal::Step);
        }
        if step > shape.step_limit / MOST_SENSES || shape.reading_limit < MOST_SUM {
            return Err(Refusal::Depth);
        }
        Ok(shape.width)
    }

    /// Adds a sense, one reading for each cell, to those that stand, and answers how many there are. Refused, first
    /// that applies: 13 where the block is closed; 2 unless there are as many readings as cells; 11 where 64 senses
    /// stand.
    pub fn sense(&mut self, readings: &[i16]) -> Result<u32, Refusal>
        ensures a_closed_block_refuses { IsClosed self.old → result ≡ Err Closed }
        ensures answers_how_many_stand { IfOpen self.old (λ q S.
            result ≡ sense_answer (meaning_of self.old) q S readings.now) }
        ensures full_exactly_where_as_many_stand { IfOpen self.old (λ q S.
            length readings.now ≡ width_of (meaning_of self.old) →
            (result ≡ Err Full) ↔ (count_of S ≡ depth (meaning_of self.old) q)) }
        ensures stands_after_the_sense { IfOpen self.old (λ q S.
            Stands q (after_sense (meaning_of self.old) q S readings.now) self.new) }
        ensures keeps_the_finder { finder_of self.new ≡ finder_of self.old }
        ensures a_refusal_changes_nothing { OnErr result (self.new ≡ self.old) }
    {
        match &mut self.opened {
            Some(opened) => opened.sense(readings, MOST_SENSES),
            None => Err(Refusal::Closed),
        }
    }

    /// Removes the senses that stand, and answers how many there were. Refused by 13 where the block is closed.
    pub fn clear(&mut self) -> Result<u32, Refusal>
        ensures a_closed_block_refuses { IsClosed self.old → result ≡ Err Closed }
        ensures answers_how_many_stood { IfOpen self.old (λ q S. result ≡ clear_answer S) }
        ensures none_stands { IfOpen self.old (λ q S. Stands q none_standing self.new) }
        ensures keeps_the_finder { finder_of self.new ≡ finder_of self.old }
        ensures a_refusal_changes_nothing { OnErr result (self.new ≡ self.old) }
    {
        match &mut self.opened {
            Some(opened) => Ok(opened.clear()),
            None => Err(Refusal::Closed),
        }
    }

    /// Writes a point of least total over the senses that stand into the place, one number for each cell, and answers
    /// the total: the squares of (reading - step * coordinate), added over the cells and the senses. Of several such
    /// points it is the one that the finder picks for the sums. Refused, first that applies, with the place left as it
    /// was: 13 where the block is closed; 2 unless the place has one number for each cell; 12 where no sense stands.
    pub fn decide(&self, place: &mut [i32]) -> Result<u64, Refusal>
        ensures a_closed_block_refuses { IsClosed self.now → result ≡ Err Closed }
        ensures answers_the_total { IfOpen self.now (λ q S.
            result ≡ decide_answer (meaning_of self.now) q S (length place.old)) }
        ensures empty_exactly_where_none_stands { IfOpen self.now (λ q S.
            length place.old ≡ width_of (meaning_of self.now) →
            (result ≡ Err Empty) ↔ (count_of S ≡ 0)) }
        ensures writes_the_point { IfOpen self.now (λ q S.
            place.new ≡ decide_place (meaning_of self.now) q S place.old) }
        ensures has_the_least_total { IfOpen self.now (λ q S.
            DecideOutcome (meaning_of self.now) q S place.old place.new result) }
        ensures a_refusal_leaves_the_place { OnErr result (place.new ≡ place.old) }
    {
        let Some(opened) = &self.opened else {
            return Err(Refusal::Closed);
        };
        let width = opened.width;
        if place.len() != width {
            return Err(Refusal::Length);
        }
        let tally = &opened.tally;
        if tally.count < 1 {
            return Err(Refusal::Empty);
        }
        let step = tally.count * opened.step;
        let distance = self.finder.find(&tally.sums[..width], step, place)?;
        Ok(tally.total(width, distance))
    }

    /// How many senses stand: 0 in a closed block.
    pub fn count(&self) -> u32
        ensures none_stands_in_a_closed_block { IsClosed self.now → result ≡ 0 }
        ensures counts_the_senses { IfOpen self.now (λ q S. result ≡ count_of S) }
    {
        match &self.opened {
            Some(opened) => opened.tally.count,
            None => 0,
        }
    }

    // Decides into a place of this length, which is one of zeros.
    fn decision(&self, length: usize) -> Result<Decision, Refusal>
        ensures a_closed_block_refuses { IsClosed self.now → result ≡ Err Closed }
        ensures decides { IfOpen self.now (λ q S. result ≡ decision_answer (meaning_of self.now) q S length) }
    {
        let mut place = [0; MOST_CELLS + 1];
        // no point has 33 numbers, so a longer place is refused as one of so many is
        let place = &mut place[..length.min(MOST_CELLS + 1)];
        let total = self.decide(place)?;
        Ok(Decision {
            point: padded(place),
            total,
        })
    }

    /// Makes a call that is given as a value, and answers as that call does.
    pub fn make(&mut self, call: Call<'_>) -> Answer
        ensures a_closed_block_refuses { IsClosed self.old → result ≡ closed_answer call.entry }
        ensures answers_the_call { IfOpen self.old (λ q S. result ≡ answer_to (meaning_of self.old) q S call.entry) }
        ensures stands_after_the_call { IfOpen self.old (λ q S.
            Stands q (after_call (meaning_of self.old) q S call.entry) self.new) }
        ensures keeps_the_finder { finder_of self.new ≡ finder_of self.old }
        ensures a_refusal_changes_nothing { IsRefused result → self.new ≡ self.old }
    {
        match call {
            Call::Sense(readings) => Answer::Sense(self.sense(readings)),
            Call::Clear => Answer::Clear(self.clear()),
            Call::Decide(length) => Answer::Decide(self.decision(length)),
        }
    }

    /// Opens the block at a step, makes the calls in order, and writes what each was answered, refusals too. Refused,
    /// with block and answers left as they were: 2 unless there are as many places for answers as calls; else as
    /// opening is.
    pub fn run(
        &mut self,
        step: u32,
        calls: &[Call<'_>],
        answers: &mut [Answer],
    ) -> Result<(), Refusal>
        ensures first_refusal { result ≡ run_checked (meaning_of self.old) step calls.now (length answers.old) }
        ensures a_refusal_changes_nothing { OnErr result ((self.new ≡ self.old) × (answers.new ≡ answers.old)) }
        ensures keeps_the_finder { finder_of self.new ≡ finder_of self.old }
        ensures answers_follow_from_the_calls_alone { OnOk result (
            answers.new ≡ answers_to (meaning_of self.old) step calls.now) }
        ensures the_calls_say_what_stands { OnOk result (
            Stands step (standing (meaning_of self.old) step calls.now) self.new) }
        ensures each_sense_is_granted_unless_full { OnOk result (
            EachSenseIsGrantedUnlessFull (meaning_of self.old) step calls.now answers.new) }
        ensures each_clear_tells_how_many_stood { OnOk result (
            EachClearTellsHowManyStood (meaning_of self.old) step calls.now answers.new) }
        ensures each_decide_has_the_least_total { OnOk result (
            EachDecideHasTheLeastTotal (meaning_of self.old) step calls.now answers.new) }
        ensures each_misfit_is_refused { OnOk result (
            EachMisfitIsRefused (meaning_of self.old) calls.now answers.new) }
    {
        if answers.len() != calls.len() {
            return Err(Refusal::Length);
        }
        self.open(step)?;
        for (i, call) in calls.iter().enumerate() {
            answers[i] = self.make(*call);
        }
        Ok(())
    }
}
