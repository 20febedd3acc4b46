ghost use Rattle.std.specs.Prelude.{Some};
ghost use Rattle.nearest.specs.Found.{nearest_text, found_text};

use codewords::found::Codeword;
use std::fmt;

// A nearest point, and its squared distance.
#[derive(Drop)]
pub struct Nearest {
    pub point: Vec<i32>,
    pub distance: u64,
}

impl fmt::Display for Nearest {
    ghost output = { λ nearest. Some (nearest_text nearest) };

    fn fmt<W: fmt::Write>(&self, f: &mut fmt::Formatter<W>) -> fmt::Result {
        write!(f, "point")?;
        for number in &self.point {
            write!(f, " {number}")?;
        }
        write!(f, " distance {}", self.distance)
    }
}

// What a task has found.
#[derive(Drop)]
pub enum Found {
    Point(Nearest),
    Word(Codeword),
}

impl fmt::Display for Found {
    ghost output = { λ found. Some (found_text found) };

    fn fmt<W: fmt::Write>(&self, f: &mut fmt::Formatter<W>) -> fmt::Result {
        match self {
            Found::Point(nearest) => write!(f, "{nearest}"),
            Found::Word(codeword) => write!(f, "{codeword}"),
        }
    }
}
