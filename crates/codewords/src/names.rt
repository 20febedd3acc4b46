ghost use Rattle.std.specs.Prelude.{◌≡◌};
ghost use Rattle.codewords.specs.Sets.{named};

use super::words::{Code, Listing};
use finders::refusals::Refusal;
use std::str::FromStr;

// What the first word of a line asks for: a word of a code, or of what the line makes with the words that it lists.
#[derive(Clone, Copy)]
pub enum Task {
    Codewords(Code),
    Listing(Listing),
}

impl FromStr for Task {
    type Err = Refusal;

    ghost from_str_gives = { λ name result. result ≡ named name };

    fn from_str(name: &str) -> Result<Task, Refusal> {
        match name {
            "universe" => Ok(Task::Codewords(Code::Universe)),
            "even" => Ok(Task::Codewords(Code::EvenWeight)),
            "reed-muller" => Ok(Task::Codewords(Code::ReedMuller)),
            "listed" => Ok(Task::Listing(Listing::Listed)),
            "glued-even" => Ok(Task::Listing(Listing::GluedEven)),
            _ => Err(Refusal::Kind),
        }
    }
}
