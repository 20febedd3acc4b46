ghost use Rattle.std.specs.Prelude.{◌≡◌, length, OnOk};
ghost use Rattle.codes.specs.EvenWeight.{even_weight};
ghost use Rattle.lattice_layers.specs.ConstructionA.{construction_a};
ghost use Rattle.lattices.specs.LatticeD.{lattice_d};
ghost use Rattle.blocks.specs.Runs.{AnsweredAlike, crosscheck_checked};

use blocks::block::Block;
use blocks::calls::{Answer, Call};
use blocks::runs::crosscheck;
use codes::even_weight::EvenWeight;
use finders::refusals::Refusal;
use lattice_layers::construction_a::ConstructionA;
use lattice_layers::laws::construction_a_of_even_weight_has_the_points_of_d;
use lattices::lattice_d::LatticeD;

/// Makes the same calls of a block over D and of one over the points whose parities form a word of even weight: they
/// are answered alike.
#[tactic(auto, using(crate::proofs::SameMeanings::two_ways_refused_alike))]
pub fn crosscheck_two_ways_to_d(
    width: usize,
    step: u32,
    calls: &[Call<'_>],
    answers: &mut [Answer],
    others: &mut [Answer],
) -> Result<(), Refusal>
    ensures first_refusal { let both = crosscheck_checked (lattice_d width) (construction_a (even_weight width)) in
        result ≡ both step calls.now (length answers.old) (length others.old) }
    ensures answered_alike { OnOk result (AnsweredAlike answers.new others.new) }
{
    construction_a_of_even_weight_has_the_points_of_d();
    let mut one = Block::new(LatticeD::new(width));
    let mut other = Block::new(ConstructionA::new(EvenWeight::new(width)));
    crosscheck(&mut one, &mut other, step, calls, answers, others)
}
