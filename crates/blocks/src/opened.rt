ghost use Rattle.std.specs.Prelude.{◌≡◌, ◌^◌, ◌<◌, ◌≤◌, true, suc, take, OnOk, OnErr};
ghost use Rattle.finders.specs.Meanings.{answered};
ghost use Rattle.finders.specs.Points.{within};
ghost use Rattle.blocks.specs.Calls.{room_checked};
ghost use Rattle.blocks.specs.Tally.{TalliesNone, Adds};

use super::tally::Tally;
use finders::refusals::Refusal;

// What a block keeps while it is open.
#[derive(Clone, Copy)]
pub(super) struct Opened {
    pub(super) step: u32,
    pub(super) width: usize,
    pub(super) tally: Tally,
}

impl Opened {
    // At a step, with no sense.
    pub(super) fn new(step: u32, width: usize) -> Opened
        ensures step { result.step ≡ step }
        ensures width { result.width ≡ width }
        ensures none { TalliesNone result.tally }
    {
        Opened {
            step,
            width,
            tally: Tally::new(),
        }
    }

    // Adds a sense, where it is as wide and fewer than `most` stand.
    pub(super) fn sense(&mut self, readings: &[i16], most: u32) -> Result<u32, Refusal>
        requires few_cells { self.old.width ≤ 32 }
        requires few_senses { most ≤ 2 ^ 10 }
        requires small_sums { within (2 ^ 30) (take self.old.width self.old.tally.sums) ≡ true }
        requires small_energy { self.old.tally.energy ≤ 2 ^ 60 }
        ensures first_refusal { let count = self.old.tally.count in
            result ≡ answered (room_checked self.old.width most count readings.now) (suc count) }
        ensures step { self.new.step ≡ self.old.step }
        ensures width { self.new.width ≡ self.old.width }
        ensures granted { OnOk result (Adds readings.now self.old.tally self.new.tally) }
        ensures refused { OnErr result (self.new ≡ self.old) }
    {
        if readings.len() != self.width {
            return Err(Refusal::Length);
        }
        if self.tally.count >= most {
            return Err(Refusal::Full);
        }
        self.tally.add(readings);
        Ok(self.tally.count)
    }

    // Forgets the senses, and answers how many there were.
    pub(super) fn clear(&mut self) -> u32
        ensures count { result ≡ self.old.tally.count }
        ensures step { self.new.step ≡ self.old.step }
        ensures width { self.new.width ≡ self.old.width }
        ensures none { TalliesNone self.new.tally }
    {
        let count = self.tally.count;
        self.tally = Tally::new();
        count
    }
}
