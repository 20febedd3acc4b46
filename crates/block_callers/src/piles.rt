ghost use Rattle.std.specs.Prelude.{◌≡◌, ◌∷◌, [], MatchResult, OnOk};
ghost use Rattle.finders.specs.Meanings.{answered};
ghost use Rattle.blocks.specs.Senses.{IsLeastTotal};
ghost use Rattle.blocks.specs.Calls.{decided_total};
ghost use Rattle.blocks.specs.Block.{finder_of, meaning_of, Stands};
ghost use Rattle.block_callers.specs.Callers.{calls_checked};

use blocks::block::Block;
use finders::points::PointFinder;
use finders::refusals::Refusal;
use lattice_layers::glue::Glue;

/// Makes six calls of a block over the glued points of any finder, at a step: a sense, a clear, two senses and a decide
/// after the opening. Only the senses after the clear are decided.
pub fn decide_after_a_clear<F: PointFinder>(
    block: &mut Block<Glue<F>>,
    step: u32,
    early: &[i16],
    late: &[i16],
    last: &[i16],
    place: &mut [i32],
) -> Result<u64, Refusal>
    ensures keeps_the_finder { finder_of block.new ≡ finder_of block.old }
    ensures first_refusal { let M = meaning_of block.old in
        let lists = early.now ∷ late.now ∷ last.now ∷ place.old ∷ [] in
        result ≡ answered (calls_checked M step lists) (decided_total M step (last.now ∷ late.now ∷ [])) }
    ensures what_stands { OnOk result (Stands step (record { senses = last.now ∷ late.now ∷ [] }) block.new) }
    ensures least_total_since_the_clear { MatchResult result
        (λ t. IsLeastTotal (meaning_of block.old) step (last.now ∷ late.now ∷ []) place.new t)
        (λ e. place.new ≡ place.old) }
{
    block.open(step)?;
    block.sense(early)?;
    block.clear()?;
    block.sense(late)?;
    block.sense(last)?;
    block.decide(place)
}
