ghost use Rattle.std.specs.Prelude.{◌≡◌, ◌∷◌, [], MatchResult};
ghost use Rattle.finders.specs.Meanings.{answered};
ghost use Rattle.lattice_layers.specs.E8.{e8_by_glue as e8};
ghost use Rattle.blocks.specs.Senses.{IsLeastTotal};
ghost use Rattle.blocks.specs.Calls.{decided_total};
ghost use Rattle.block_callers.specs.Callers.{calls_checked};

use super::any_finder::decide_two_senses;
use finders::refusals::Refusal;
use lattice_layers::e8::e8_by_glue;

/// Two senses over E8, decided: no point of E8 has a smaller total.
pub fn decide_in_e8(
    step: u32,
    first: &[i16],
    second: &[i16],
    place: &mut [i32],
) -> Result<u64, Refusal>
    ensures first_refusal { let granted = calls_checked e8 step (first.now ∷ second.now ∷ place.old ∷ []) in
        result ≡ answered granted (decided_total e8 step (second.now ∷ first.now ∷ [])) }
    ensures least_total_in_e8 { MatchResult result
        (λ t. IsLeastTotal e8 step (second.now ∷ first.now ∷ []) place.new t)
        (λ e. place.new ≡ place.old) }
{
    decide_two_senses(e8_by_glue(), step, first, second, place)
}
