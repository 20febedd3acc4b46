ghost use Rattle.std.specs.Prelude.{◌≡◌, length};
ghost use Rattle.finders.specs.PointFinders.{find_answer, find_place, Outcome};
ghost use Rattle.nearest.specs.Sets.{named, meaning_of};

use codes::even_weight::EvenWeight;
use finders::points::PointFinder;
use finders::refusals::Refusal;
use lattice_layers::construction_a::ConstructionA;
use lattice_layers::e8::{e8_by_glue, e8_by_words};
use lattices::lattice_d::LatticeD;
use lattices::lattice_z::LatticeZ;
use std::str::FromStr;

// The sets that a task can name: a closed list, so an enum, and `find` matches on it; a `dyn` value would be made and handed out.
#[derive(Clone, Copy)]
pub enum Lattice {
    Z,
    D,
    // the points of D, as those whose parities form a word of even weight
    DWords,
    E8Glue,
    E8Words,
}

impl FromStr for Lattice {
    type Err = Refusal;

    ghost from_str_gives = { λ name result. result ≡ named name };

    fn from_str(name: &str) -> Result<Lattice, Refusal> {
        match name {
            "Z" => Ok(Lattice::Z),
            "D" => Ok(Lattice::D),
            "D-words" => Ok(Lattice::DWords),
            "E8-glue" => Ok(Lattice::E8Glue),
            "E8-words" => Ok(Lattice::E8Words),
            _ => Err(Refusal::Kind),
        }
    }
}

impl Lattice {
    // The nearest point, of Z and D of as many cells as readings.
    pub fn find(self, readings: &[i32], step: u32, place: &mut [i32]) -> Result<u64, Refusal>
        ensures answers_the_distance { result ≡ find_answer (meaning_of self (length readings.now)) readings.now step place.old }
        ensures writes_the_pick { place.new ≡ find_place (meaning_of self (length readings.now)) readings.now step place.old }
        ensures gives_the_nearest_member { Outcome (meaning_of self (length readings.now)) readings.now step place.old place.new result }
    {
        match self {
            Lattice::Z => LatticeZ::new(readings.len()).find(readings, step, place),
            Lattice::D => LatticeD::new(readings.len()).find(readings, step, place),
            Lattice::DWords => {
                let words = EvenWeight::new(readings.len());
                ConstructionA::new(words).find(readings, step, place)
            }
            Lattice::E8Glue => e8_by_glue().find(readings, step, place),
            Lattice::E8Words => e8_by_words().find(readings, step, place),
        }
    }
}
