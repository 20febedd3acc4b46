ghost use Rattle.std.specs.Prelude.{◌≡◌, ◌∷◌, [], pos, Ok};

use blocks::block::Block;
use finders::refusals::Refusal;
use lattices::lattice_d::LatticeD;

/// What came of the worked pair.
#[derive(Debug, Clone, Copy, PartialEq, Eq)]
pub struct Worked {
    pub total: u64,
    /// How many senses stood before the clear, and after it.
    pub before: u32,
    pub after: u32,
}

/// Two senses over D of two cells at the step 10: the point is (1, 1), and its total 102.
#[tactic(auto, using(crate::proofs::WorkedPair::worked))]
pub fn decide_the_worked_pair(place: &mut [i32; 2]) -> Result<Worked, Refusal>
    ensures answers { result ≡ Ok (record { total = 102; before = 2; after = 0 }) }
    ensures point { place.new ≡ pos 1 ∷ pos 1 ∷ [] }
{
    let mut block = Block::new(LatticeD::new(2));
    block.open(10)?;
    block.sense(&[15, 4])?;
    block.sense(&[5, 6])?;
    let total = block.decide(place)?;
    let before = block.count();
    block.clear()?;
    let after = block.count();
    Ok(Worked {
        total,
        before,
        after,
    })
}
