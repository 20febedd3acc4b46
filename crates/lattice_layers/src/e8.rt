ghost use Rattle.finders.specs.PointFinders.{Same};
ghost use Rattle.lattice_layers.specs.E8.{e8_by_glue, e8_by_words};

use super::construction_a::ConstructionA;
use super::glue::Glue;
use super::scale::Scale;
use codes::reed_muller::ReedMuller;
use finders::points::PointFinder;
use lattices::lattice_d::LatticeD;

// E8 as twice D of 8 cells, glued by the row of eight ones.
pub fn e8_by_glue() -> Glue<Scale<LatticeD>>
    ensures means_e8_by_glue { Same (⟦<Glue<Scale<LatticeD>> as PointFinder>⟧.meaning result) e8_by_glue }
{
    Glue::new(Scale::new(LatticeD::new(8), 2), &[&[1; 8]])
}

// E8 as the points whose parities form a word of the Reed-Muller code of 8 cells.
pub fn e8_by_words() -> ConstructionA<ReedMuller>
    ensures means_e8_by_words { Same (⟦<ConstructionA<ReedMuller> as PointFinder>⟧.meaning result) e8_by_words }
{
    ConstructionA::new(ReedMuller::new(3))
}
