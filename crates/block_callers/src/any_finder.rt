ghost use Rattle.std.specs.Prelude.{◌≡◌, ◌∷◌, [], MatchResult};
ghost use Rattle.finders.specs.Meanings.{answered};
ghost use Rattle.blocks.specs.Senses.{IsLeastTotal};
ghost use Rattle.blocks.specs.Calls.{decided_total};
ghost use Rattle.block_callers.specs.Callers.{calls_checked};

use blocks::block::Block;
use finders::points::PointFinder;
use finders::refusals::Refusal;

/// Opens a block over any finder, makes two senses and decides: a point of least total over the two, or a refusal,
/// with the place as it was.
pub fn decide_two_senses<F: PointFinder + Drop>(
    finder: F,
    step: u32,
    first: &[i16],
    second: &[i16],
    place: &mut [i32],
) -> Result<u64, Refusal>
    ensures first_refusal { let M = F.PointFinder.meaning finder in
        let granted = calls_checked M step (first.now ∷ second.now ∷ place.old ∷ []) in
        result ≡ answered granted (decided_total M step (second.now ∷ first.now ∷ [])) }
    ensures least_total { MatchResult result
        (λ t. IsLeastTotal (F.PointFinder.meaning finder) step (second.now ∷ first.now ∷ []) place.new t)
        (λ e. place.new ≡ place.old) }
{
    let mut block = Block::new(finder);
    block.open(step)?;
    block.sense(first)?;
    block.sense(second)?;
    block.decide(place)
}
