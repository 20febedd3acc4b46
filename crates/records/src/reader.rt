ghost use Rattle.std.specs.Prelude.{◌≡◌, ◌+◌, ◌^◌, ◌<◌, List, ℕ, length, drop};
ghost use Rattle.std.specs.Prelude.{Some, IfOk, IfErr, IfSome, IfNone};
ghost use Rattle.records.specs.Records.{entry_of};
ghost use Rattle.records.specs.Grammar.{Begins, BeginsNoRecord};
ghost use Rattle.records.specs.Reader.{ending_text, Stands, LendsItsBytes, ReadingsBegin, EndsAt};

use super::record::Record;
use std::fmt;

/// How a stream ends.
#[derive(Debug, Clone, Copy, PartialEq, Eq)]
pub enum Ending {
    /// After its last record. An empty stream ends so as well.
    End,
    /// Before bytes that begin no whole record: an unknown mark, or a record that is cut short. The place is that of
    /// the first of these bytes, counted from 0.
    Stop(usize),
}

impl fmt::Display for Ending {
    ghost output = { λ ending. Some (ending_text ending) };

    fn fmt<W: fmt::Write>(&self, f: &mut fmt::Formatter<W>) -> fmt::Result {
        match self {
            Ending::End => write!(f, "end"),
            Ending::Stop(place) => write!(f, "stop {place}"),
        }
    }
}

/// A record that was read, and the place of what follows it: none at the end of the input.
#[derive(Debug, Clone, Copy, PartialEq, Eq)]
pub struct ReadRecord<'a> {
    pub record: Record<'a>,
    pub next: Option<usize>,
}

/// Reads the record that begins at a place of the input, or answers how the stream ends there. A stream is read from
/// the place 0 on; at no place, and at one beyond the input, it ends.
pub fn read_record(input: &[u8], place: Option<usize>) -> Result<ReadRecord<'_>, Ending>
    ensures a_record_stands_there { IfOk result (λ r. Stands input.now place r) }
    ensures lends_the_bytes_of_a_sense { IfOk result (λ r. LendsItsBytes input.now r.record) }
    ensures tells_where_they_begin { IfOk result (λ r. ReadingsBegin place r.record) }
    ensures ends_exactly_where_no_record_stands { IfErr result (λ e. EndsAt input.now place e) }
{
    let Some(place) = place else {
        return Err(Ending::End);
    };
    let bytes = input.get(place..).unwrap_or_default();
    if bytes.is_empty() {
        return Err(Ending::End);
    }
    let (record, rest) = first_record(bytes, place).ok_or(Ending::Stop(place))?;
    let next = (!rest.is_empty()).then_some(input.len() - rest.len());
    Ok(ReadRecord { record, next })
}

// The record that the bytes begin with, and the bytes behind it; none where they begin with no whole record.
fn first_record(bytes: &[u8], place: usize) -> Option<(Record<'_>, &[u8])>
    requires lies_in_memory { place + length bytes.now < 2 ^ 64 }
    ensures the_bytes_begin_with_it { IfSome result (λ r. Begins bytes.now (entry_of r.0) r.1.now) }
    ensures lends_the_bytes_of_a_sense { IfSome result (λ r. (input : List ℕ) →
        drop place input ≡ bytes.now → LendsItsBytes input r.0) }
    ensures tells_where_they_begin { IfSome result (λ r. ReadingsBegin (Some place) r.0) }
    ensures or_they_begin_no_record { IfNone result (BeginsNoRecord bytes.now) }
{
    match bytes {
        [0xA5, 0x01, kind, cells, a, b, c, d, rest @ ..] => {
            let (kind, cells) = (*kind, *cells);
            let step = u32::from_be_bytes([*a, *b, *c, *d]);
            Some((Record::Open { kind, cells, step }, rest))
        }
        [0xA5, 0x02, cells, rest @ ..] => {
            let (bytes, rest) = rest.split_at_checked(2 * usize::from(*cells))?;
            let place = place + 3;
            Some((Record::Sense { place, bytes }, rest))
        }
        [0xA5, 0x03, rest @ ..] => Some((Record::Clear, rest)),
        [0xA5, 0x04, rest @ ..] => Some((Record::Decide, rest)),
        _ => None,
    }
}
