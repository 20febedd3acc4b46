ghost use Rattle.std.specs.Prelude.{◌≡◌, ◌≤◌, length, Option, None, OnOk, OnErr};
ghost use Rattle.std.specs.Result.{result_map_both};
ghost use Rattle.records.specs.Records.{Sense, Clear, Decide, Fits, entry_of, readings_in};
ghost use Rattle.transcripts.specs.Replies.{Sensed, Cleared, told};
ghost use Rattle.transcripts.specs.Sessions.{OpenBlock, newly_opened, opening_checked, answer_to, after, granted};
ghost use Rattle.transcripts.specs.Sessions.{Holds, HoldsBlock};

use super::reply::Reply;
use blocks::block::Block;
use finders::refusals::Refusal;
use kinds::lattice::Lattice;
use records::readings::read_readings;
use records::record::Record;

// The block that the last granted open opened: before the first, one that is closed.
#[derive(Drop)]
pub(super) struct Session {
    block: Block<Lattice>,
    cells: u8,
}

// The readings of a sense's bytes, at the front of the room for them.
#[tactic(auto, using(crate::proofs::Sessions::all_read))]
fn readings_of<'r>(bytes: &[u8], room: &'r mut [i16]) -> &'r [i16]
    requires enough_room { length (readings_in bytes.now) ≤ length room.old }
    ensures { result.now ≡ readings_in bytes.now }
{
    let count = read_readings(bytes, room);
    &room[..count]
}

impl Session {
    // Nothing is open.
    pub(super) fn new() -> Session
        ensures { Holds None result }
    {
        Session {
            block: Block::new(Lattice::Unfit(Refusal::Closed)),
            cells: 0,
        }
    }

    // Opens a block in place of the one before, which stays where this is refused.
    fn open(&mut self, kind: u8, cells: u8, step: u32) -> Result<(), Refusal>
        ensures first_refusal { result ≡ opening_checked kind cells step }
        ensures opens_newly { OnOk result (HoldsBlock (newly_opened kind cells step) self.new) }
        ensures a_refusal_changes_nothing { OnErr result (self.new ≡ self.old) }
    {
        let mut block = Block::new(Lattice::of_kind(kind, cells));
        block.open(step)?;
        *self = Session { block, cells };
        Ok(())
    }

    // Adds a sense of these bytes, with room for its readings, and answers how many senses stand.
    fn sense(&mut self, bytes: &[u8], room: &mut [i16]) -> Result<u32, Refusal>
        requires enough_room { length (readings_in bytes.now) ≤ length room.old }
        ensures answers { (G : Option OpenBlock) → Holds G self.old →
            granted Sensed result ≡ answer_to G (Sense (readings_in bytes.now)) }
        ensures holds { (G : Option OpenBlock) → Holds G self.old →
            Holds (after G (Sense (readings_in bytes.now))) self.new }
    {
        self.block.sense(readings_of(bytes, room))
    }

    // Removes the senses, and answers how many there were.
    fn clear(&mut self) -> Result<u32, Refusal>
        ensures answers { (G : Option OpenBlock) → Holds G self.old → granted Cleared result ≡ answer_to G Clear }
        ensures holds { (G : Option OpenBlock) → Holds G self.old → Holds (after G Clear) self.new }
    {
        self.block.clear()
    }

    // Decides, with room for the point.
    fn decide<'p>(&self, room: &'p mut [i32]) -> Result<Reply<'p>, Refusal>
        requires enough_room { 255 ≤ length room.old }
        ensures answers { (G : Option OpenBlock) → Holds G self.now → told result ≡ answer_to G Decide }
    {
        let point = &mut room[..usize::from(self.cells)];
        let total = self.block.decide(point)?;
        Ok(Reply::Decided { point, total })
    }

    // Does what a record asks for, with room for its readings and for the point that it is answered.
    pub(super) fn answer<'p>(
        &mut self,
        asked: Record<'_>,
        readings: &mut [i16],
        point: &'p mut [i32],
    ) -> Result<Reply<'p>, Refusal>
        requires is_a_record { Fits (entry_of asked) }
        requires room_for_readings { 255 ≤ length readings.old }
        requires room_for_a_point { 255 ≤ length point.old }
        ensures answers { (G : Option OpenBlock) → Holds G self.old →
            told result ≡ answer_to G (entry_of asked.entry) }
        ensures holds { (G : Option OpenBlock) → Holds G self.old →
            Holds (after G (entry_of asked.entry)) self.new }
    {
        match asked {
            Record::Open { kind, cells, step } => {
                self.open(kind, cells, step)?;
                Ok(Reply::Opened { kind, cells, step })
            }
            Record::Sense { bytes, .. } => Ok(Reply::Sensed(self.sense(bytes, readings)?)),
            Record::Clear => Ok(Reply::Cleared(self.clear()?)),
            Record::Decide => self.decide(point),
        }
    }
}
