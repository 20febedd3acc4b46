ghost use Rattle.std.specs.Prelude.{◌≡◌};
ghost use Rattle.nearest.specs.Names.{named};

use super::sets::Lattice;
use finders::refusals::Refusal;
use std::str::FromStr;

// What the first word of a line asks for: a point of a lattice, or a word of a code.
#[derive(Clone, Copy)]
pub enum Task {
    Points(Lattice),
    Words(codewords::names::Task),
}

impl FromStr for Task {
    type Err = Refusal;

    ghost from_str_gives = { λ name result. result ≡ named name };

    fn from_str(name: &str) -> Result<Task, Refusal> {
        match name.parse() {
            Ok(lattice) => Ok(Task::Points(lattice)),
            Err(_) => Ok(Task::Words(name.parse()?)),
        }
    }
}
