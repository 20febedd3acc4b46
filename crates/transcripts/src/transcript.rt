ghost use Rattle.std.specs.Prelude.{◌≡◌, ◌≤◌, ◌++◌, List, IfOk, OnOk, string_bytes};
ghost use Rattle.transcripts.specs.Replies.{told, answer_text};
ghost use Rattle.records.specs.Grammar.{IsRead};
ghost use Rattle.records.specs.Records.{Entry};
ghost use Rattle.records.specs.declared.reader.Ending.{Ending};
ghost use Rattle.transcripts.specs.Transcripts.{line, answers_to, IsTranscript};
ghost use Rattle.transcripts.specs.Comparing.{EachPointHasTheLeastTotal, SameButForKinds};
ghost use Rattle.transcripts.specs.Comparing.{HaveOneSet, IsPartOf, SameAnswers};

use super::reply::Reply;
use super::session::Session;
use finders::refusals::Refusal;
use records::reader::{ReadRecord, read_record};
use records::readings::MOST_READINGS;
use std::alloc::{AllocError, Global};
use std::fmt::Write;

/// The text that a stream of records is answered: a line for each record, in order, and one for how the stream ends.
///
/// A granted open is told as `open KIND CELLS STEP`, a sense as `sense M` with the number of senses that stand then, a
/// clear as `clear M` with the number that it removed, a decide as `point X1 .. Xn total T`; a refused record as
/// `refused N`, and then nothing has changed. The last line is `end`, or `stop PLACE` where no whole record stands.
///
/// An open is refused, first that applies, by 14 for an unknown kind; 2 for E8 of other than 8 cells; 1 for Z or D of
/// other than 1 to 32; 4 for a step of 0; 10 where 64 steps exceed the step limit. What comes before a granted open is
/// refused by 13; then a sense by 2 unless it has a reading for each cell, and by 11 where 64 stand; a decide by 12
/// where none stands. The one error is memory that runs out.
#[tactic(auto, using(crate::proofs::Least::each_point, crate::proofs::Alike::one_set, crate::proofs::Alike::part_of))]
pub fn transcript(heap: Global, input: &[u8]) -> Result<String, AllocError>
    ensures tells_each_record_and_the_ending { IfOk result (λ text. IsTranscript input.now (string_bytes text)) }
    ensures each_point_has_the_least_total { (es : List Entry) (e : Ending) → IsRead input.now es e →
        EachPointHasTheLeastTotal es (answers_to es) }
    ensures kinds_of_one_set_have_the_same_totals { (es fs : List Entry) (e : Ending) → IsRead input.now es e →
        SameButForKinds HaveOneSet es fs → SameAnswers (λ t u. u ≡ t) (answers_to es) (answers_to fs) }
    ensures a_kind_of_more_points_has_no_larger_totals { (es fs : List Entry) (e : Ending) → IsRead input.now es e →
        SameButForKinds IsPartOf es fs → SameAnswers (λ t u. u ≤ t) (answers_to es) (answers_to fs) }
{
    let mut text = String::new(heap);
    let mut session = Session::new();
    let mut readings = vec![in heap; 0i16; MOST_READINGS]?;
    // a byte counts the cells of a block as it does those of a sense
    let mut point = vec![in heap; 0i32; MOST_READINGS]?;
    let readings = readings.as_mut_slice();
    let point = point.as_mut_slice();
    let mut place = Some(0);
    loop {
        match read_record(input, place) {
            Ok(ReadRecord { record, next }) => {
                write_answer(&mut text, session.answer(record, readings, point))?;
                place = next;
            }
            Err(ending) => {
                writeln!(text, "{ending}")?;
                return Ok(text);
            }
        }
    }
}

// Writes the line of an answer.
fn write_answer(text: &mut String, answer: Result<Reply<'_>, Refusal>) -> Result<(), AllocError>
    ensures { OnOk result (string_bytes text.new ≡ string_bytes text.old ++ line (answer_text (told answer.entry))) }
{
    match answer {
        Ok(reply) => writeln!(text, "{reply}"),
        Err(refusal) => writeln!(text, "{refusal}"),
    }
}
