ghost use Rattle.std.specs.Prelude.{◌≡◌, Some};
ghost use Rattle.codewords.specs.Found.{told, codeword_text};

use finders::refusals::Refusal;
use std::fmt;
use tasks::failure::Failure;

// A best word, and its correlation.
#[derive(Clone, Copy)]
pub struct Codeword {
    pub word: u32,
    pub correlation: i64,
}

impl fmt::Display for Codeword {
    ghost output = { λ found. Some (codeword_text found) };

    fn fmt<W: fmt::Write>(&self, f: &mut fmt::Formatter<W>) -> fmt::Result {
        write!(f, "word {} correlation {}", self.word, self.correlation)
    }
}

// What a find is told as: the word and its correlation, or the refusal.
pub fn told(found: Result<(u32, i64), Refusal>) -> Result<Codeword, Failure>
    ensures tells_the_word_or_the_refusal { result ≡ told found }
{
    let (word, correlation) = found?;
    Ok(Codeword { word, correlation })
}
