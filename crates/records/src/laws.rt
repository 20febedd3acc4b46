ghost use Rattle.std.specs.Prelude.{◌≡◌, ◌↔◌, ℕ, ◌<◌, List, Some};
ghost use Rattle.std.specs.List.{AllByRecursion, flat_map};
ghost use Rattle.records.specs.Records.{Entry, Fits, IsBytes, reading_bytes, readings_in};
ghost use Rattle.records.specs.Grammar.{BeginsNoRecord, AreEnough, IsRead, stream, up_to};
ghost use Rattle.records.specs.Reader.{Stands, IsLent, IsAnswered, entries_of};
ghost use Rattle.records.specs.declared.reader.Ending.{Ending};
ghost use Rattle.records.specs.declared.reader.Ending.TheVariants.{End};
ghost use Rattle.records.specs.declared.reader.ReadRecord.{ReadRecord};

// Theorems on the definitions that the contracts of the reader rest on. These functions do nothing: what counts is
// that they are proved to meet their contracts.

/// Every input is read as exactly one list of records with one ending, and the records written out again are the
/// input up to the ending. What is written as records, and goes no further, is read as these.
pub fn every_input_is_read_in_one_way()
    ensures it_is_read { (input : List ℕ) → IsBytes input →
        (es : List Entry) × (e : Ending) × IsRead input es e }
    ensures as_one_list { (input : List ℕ) (es fs : List Entry) (e f : Ending) →
        IsRead input es e → IsRead input fs f → fs ≡ es }
    ensures with_one_ending { (input : List ℕ) (es fs : List Entry) (e f : Ending) →
        IsRead input es e → IsRead input fs f → f ≡ e }
    ensures the_records_are_the_input_up_to_the_ending { (input : List ℕ) (es : List Entry) (e : Ending) →
        IsRead input es e → stream es ≡ up_to e input }
    ensures what_is_written_is_read { (es : List Entry) → AllByRecursion Fits es → IsRead (stream es) es End }
{}

/// What the reader answers from the place 0 on, asked again at each next place until the stream ends, is that list of
/// records with that ending.
pub fn the_reader_answers_that_reading()
    ensures it_is_the_reading { (input : List ℕ) (rs : List ReadRecord) (e : Ending) →
        IsAnswered input (Some 0) rs e → IsRead input (entries_of rs) e }
    ensures each_next_place_is_later { (input : List ℕ) (r : ReadRecord) (p q : ℕ) →
        Stands input (Some p) r → r.next ≡ Some q → p < q }
{}

/// Reading stops at an unknown mark and at a record that is cut short, and nowhere else.
#[tactic(auto, using(crate::proofs::Fronts::no_record_exactly_where_not_enough))]
pub fn no_record_begins_without_a_mark_and_enough_bytes()
    ensures exactly_there { (bytes : List ℕ) → IsBytes bytes → BeginsNoRecord bytes ↔ (AreEnough bytes → ⊥) }
{}

/// The bytes that are lent for a sense are those that its readings are written as.
#[tactic(auto, using(crate::proofs::Standing::lent_as_written))]
pub fn what_is_lent_was_written()
    ensures as_its_readings { (input bytes : List ℕ) (place : ℕ) → IsBytes input → IsLent input place bytes →
        flat_map reading_bytes (readings_in bytes) ≡ bytes }
{}
