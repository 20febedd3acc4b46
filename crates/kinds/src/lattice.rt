ghost use Rattle.finders.specs.Meanings.{Meaning};
ghost use Rattle.finders.specs.PointFinders.{PointFit, Lawful, Same, shape_of, find_answer, find_place};
ghost use Rattle.codes.specs.ReedMullerLaws.{reed_muller_lawful};
ghost use Rattle.lattices.specs.DLaws.{d_lawful};
ghost use Rattle.lattices.specs.ZLaws.{z_lawful};
ghost use Rattle.lattice_layers.specs.ConstructionALaws.{construction_a_lawful};
ghost use Rattle.lattice_layers.specs.GlueLaws.{glued_lawful};
ghost use Rattle.lattice_layers.specs.ScaleLaws.{scaled_lawful};
ghost use Rattle.kinds.specs.Kinds.{set_of};
ghost use Rattle.kinds.specs.Lattice.{meaning_by, lattice_lawful};

use codes::reed_muller::ReedMuller;
use finders::points::{PointFinder, PointShape};
use finders::refusals::Refusal;
use lattice_layers::construction_a::ConstructionA;
use lattice_layers::e8::{e8_by_glue, e8_by_words};
use lattice_layers::glue::Glue;
use lattice_layers::scale::Scale;
use lattices::lattice_d::LatticeD;
use lattices::lattice_z::LatticeZ;

// The two forms of E8.
type ByGlue = Glue<Scale<LatticeD>>;

type ByWords = ConstructionA<ReedMuller>;

/// A lattice of a kind that is known only at run time.
#[derive(Clone, Copy, Drop)]
pub enum Lattice {
    /// All points.
    Z(LatticeZ),
    /// The points of even sum.
    D(LatticeD),
    /// A scaled D, glued by rows: E8 is twice D, glued by the row of eight ones.
    E8ByGlue(ByGlue),
    /// Construction A over a Reed-Muller code: E8 over that of 8 cells.
    E8ByWords(ByWords),
    /// No lattice: unfit by this refusal.
    Unfit(Refusal),
}

impl Lattice {
    /// The lattice of a kind, of so many cells: 1 for Z, 2 for D, 3 for E8 by glue, 4 for E8 by words. It is unfit by
    /// 14 for another kind; by 2 where the kind is 3 or 4 and there are not 8 cells; by 1 where it is 1 or 2 and there
    /// are not 1 to 32.
    pub fn of_kind(kind: u8, cells: u8) -> Lattice
        ensures means_the_set_of_the_kind { Same (⟦<Lattice as PointFinder>⟧.meaning result) (set_of kind cells) }
    {
        let width = usize::from(cells);
        match kind {
            1 => Lattice::Z(LatticeZ::new(width)),
            2 => Lattice::D(LatticeD::new(width)),
            3 | 4 if width != 8 => Lattice::Unfit(Refusal::Length),
            3 => Lattice::E8ByGlue(e8_by_glue()),
            4 => Lattice::E8ByWords(e8_by_words()),
            _ => Lattice::Unfit(Refusal::Kind),
        }
    }
}

impl PointFinder for Lattice {
    ghost meaning = { meaning_by
        ⟦<LatticeZ as PointFinder>⟧.meaning ⟦<LatticeD as PointFinder>⟧.meaning
        ⟦<ByGlue as PointFinder>⟧.meaning ⟦<ByWords as PointFinder>⟧.meaning };

    ghost lawful = { lattice_lawful _ _ _ _
        (Prim.search z_lawful) (Prim.search d_lawful)
        (Prim.search (glued_lawful, scaled_lawful, d_lawful))
        (Prim.search (construction_a_lawful, reed_muller_lawful)) };

    fn shape(&self) -> Result<PointShape, Refusal> {
        match self {
            Lattice::Z(z) => z.shape(),
            Lattice::D(d) => d.shape(),
            Lattice::E8ByGlue(e8) => e8.shape(),
            Lattice::E8ByWords(e8) => e8.shape(),
            Lattice::Unfit(refusal) => Err(*refusal),
        }
    }

    fn find(&self, readings: &[i32], step: u32, place: &mut [i32]) -> Result<u64, Refusal> {
        match self {
            Lattice::Z(z) => z.find(readings, step, place),
            Lattice::D(d) => d.find(readings, step, place),
            Lattice::E8ByGlue(e8) => e8.find(readings, step, place),
            Lattice::E8ByWords(e8) => e8.find(readings, step, place),
            Lattice::Unfit(refusal) => Err(*refusal),
        }
    }
}
