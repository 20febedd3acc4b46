ghost use Rattle.std.specs.Prelude.{◌≡◌, ◌≢◌, ◌⊎◌, ℕ, suc, ◌*◌, ◌<◌, nat_le, List, ◌∷◌, ◌++◌, take, reverse, ℤ};
ghost use Rattle.std.specs.Prelude.{slice_get, Ok, Err, None, Some};
ghost use Rattle.finders.specs.declared.refusals.Refusal.{Refusal};
ghost use Rattle.finders.specs.declared.refusals.Refusal.TheVariants.{Kind, Length, Width, Step, Depth, Closed};
ghost use Rattle.finders.specs.Meanings.{checked, fitness_of};
ghost use Rattle.blocks.specs.Senses.{none_standing};
ghost use Rattle.blocks.specs.Calls.{depth};
ghost use Rattle.records.specs.Records.{Entry, Open, Sense, Clear, Decide, IsBytes};
ghost use Rattle.transcripts.specs.Replies.{Sensed, Cleared};
ghost use Rattle.transcripts.specs.Sessions.{OpenBlock, set, opening_checked, newly_opened, with_standing, answer_to};
ghost use Rattle.transcripts.specs.Transcripts.{open_from, open_after, answers_to, IsTranscript};
ghost use Rattle.transcripts.specs.Openings.{IsKind, largest_step, EachOpenIsRefused, SoManyStand};
ghost use Rattle.transcripts.specs.Openings.{AreSensesAndDecides, senses_of_cells};

use records::laws::every_input_is_read_in_one_way;

// Theorems on the definitions that the contract of `transcript` rests on. These functions do nothing: what counts is
// that each is proved to meet its contract.

/// Every input has one transcript.
pub fn an_input_has_one_transcript()
    ensures some_text { (input : List ℕ) → IsBytes input → (text : List ℕ) × IsTranscript input text }
    ensures no_other { (input text other : List ℕ) →
        IsTranscript input text → IsTranscript input other → other ≡ text }
{
    every_input_is_read_in_one_way();
}

/// What an open is refused for, first that applies.
pub fn an_open_is_refused_in_this_order()
    ensures an_unknown_kind_first { (kind n q : ℕ) → (kind ≡ 0) ⊎ (4 < kind) →
        opening_checked kind n q ≡ Err Kind }
    ensures then_e8_of_other_than_eight_cells { (kind n q : ℕ) → (kind ≡ 3) ⊎ (kind ≡ 4) → n ≢ 8 →
        opening_checked kind n q ≡ Err Length }
    ensures then_z_or_d_of_no_cell_or_too_many { (kind n q : ℕ) → (kind ≡ 1) ⊎ (kind ≡ 2) → (n ≡ 0) ⊎ (32 < n) →
        opening_checked kind n q ≡ Err Width }
    ensures then_a_step_of_none_or_too_large { (kind n q : ℕ) → IsKind kind n →
        opening_checked kind n q ≡
        checked (nat_le 1 q) Step (checked (nat_le (64 * q) (largest_step kind)) Depth (Ok tt)) }
{}

/// Before the first granted open nothing is open, and what asks for a block is refused.
#[tactic(auto, using(crate::proofs::Openings::none_open))]
pub fn nothing_is_open_before_a_granted_open()
    ensures nothing_is_open { (es : List Entry) → EachOpenIsRefused es → open_after es ≡ None }
    ensures a_sense_is_refused { (rs : List ℤ) → answer_to None (Sense rs) ≡ Err Closed }
    ensures a_clear_is_refused { answer_to None Clear ≡ Err Closed }
    ensures a_decide_is_refused { answer_to None Decide ≡ Err Closed }
{}

/// What is open follows from the records: the last open that was granted says which block, and of the senses after it
/// and after the last clear those stand that were first, of the fitting width, up to as many as the block holds.
pub fn the_records_say_what_is_open()
    ensures a_granted_open_ends_what_was_before { (es fs : List Entry) (k n q : ℕ) → opening_checked k n q ≡ Ok tt →
        open_after (es ++ Open k n q ∷ fs) ≡ open_from (Some (newly_opened k n q)) fs }
    ensures a_refused_open_changes_nothing { (es fs : List Entry) (k n q : ℕ) (e : Refusal) →
        opening_checked k n q ≡ Err e → open_after (es ++ Open k n q ∷ fs) ≡ open_after (es ++ fs) }
    ensures a_clear_ends_the_senses_before { (g : OpenBlock) (es fs : List Entry) → AreSensesAndDecides es →
        open_from (Some g) (es ++ Clear ∷ fs) ≡ open_from (Some (with_standing g none_standing)) fs }
    ensures the_first_of_fitting_width_stand { (g : OpenBlock) (es : List Entry) → AreSensesAndDecides es →
        fitness_of (set g) ≡ Ok tt → let first = take (depth (set g) g.step) (senses_of_cells g.cells es) in
        open_from (Some (with_standing g none_standing)) es ≡
        Some (with_standing g (record { senses = reverse first })) }
{}

/// A sense that is granted tells how many senses stand, itself counted, and a clear how many stood.
pub fn the_answers_tell_how_many_stand()
    ensures after_a_sense { (es : List Entry) (i m : ℕ) → slice_get (answers_to es) i ≡ Some (Ok (Sensed m)) →
        SoManyStand m (open_after (take (suc i) es)) }
    ensures before_a_clear { (es : List Entry) (i m : ℕ) → slice_get (answers_to es) i ≡ Some (Ok (Cleared m)) →
        SoManyStand m (open_after (take i es)) }
{}
