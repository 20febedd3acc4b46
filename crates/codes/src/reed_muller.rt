ghost use Rattle.finders.specs.WordFinders.{Same};
ghost use Rattle.codes.specs.ReedMuller.{reed_muller};
ghost use Rattle.codes.specs.ReedMullerLaws.{reed_muller_lawful};

use super::gains::Gains;
use finders::refusals::Refusal;
use finders::words::{WordFinder, WordShape, WordTester};
use order::Order;

mod decode;
mod order;
mod transform;

// The first-order Reed-Muller code of 2^m cells.
#[derive(Clone, Copy)]
pub struct ReedMuller {
    m: u32,
}

impl ReedMuller {
    // The code of 2^m cells: fit for m from 1 to 5.
    pub fn new(m: u32) -> ReedMuller
        ensures means_the_code { Same (⟦<ReedMuller as WordFinder>⟧.meaning result) (reed_muller m) }
    {
        ReedMuller { m }
    }
}

impl WordFinder for ReedMuller {
    ghost meaning = { λ r. reed_muller r.m };

    ghost lawful = { λ r. reed_muller_lawful r.m };

    fn shape(&self) -> Result<WordShape, Refusal> {
        Ok(Order::new(self.m)?.shape())
    }

    #[tactic(auto, using(crate::specs::ReedMullerLaws::answers_picked))]
    fn find(&self, gains: &[i32]) -> Result<(u32, i64), Refusal> {
        let order = Order::new(self.m)?;
        order.shape().check_find(gains)?;
        Ok(order.decode(Gains::new(gains)))
    }
}

impl WordTester for ReedMuller {
    fn contains(&self, word: u32) -> Result<bool, Refusal> {
        let order = Order::new(self.m)?;
        order.shape().check_test(word)?;
        Ok(order.is_codeword(word))
    }
}
