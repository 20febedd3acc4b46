ghost use Rattle.std.specs.Prelude.{◌≡◌, length};
ghost use Rattle.finders.specs.WordFinders.{find_answer, Outcome};
ghost use Rattle.codewords.specs.Sets.{m_of, code_meaning, listing_meaning};

use code_layers::glue::Glue;
use codes::even_weight::EvenWeight;
use codes::listed::Listed;
use codes::reed_muller::ReedMuller;
use codes::universe::Universe;
use finders::refusals::Refusal;
use finders::words::WordFinder;

// The codes that a task can name: a closed list, so an enum, and `find` matches on it; a `dyn` value would be made and handed out.
#[derive(Clone, Copy)]
pub enum Code {
    Universe,
    EvenWeight,
    ReedMuller,
}

// The m of the Reed-Muller code of so many cells: a table, which five cases make as plain as a logarithm and its test.
fn m_of(cells: usize) -> Option<u32>
    ensures { result ≡ m_of cells }
{
    match cells {
        2 => Some(1),
        4 => Some(2),
        8 => Some(3),
        16 => Some(4),
        32 => Some(5),
        _ => None,
    }
}

impl Code {
    // The best word and its correlation, as many cells as gains.
    pub fn find(self, gains: &[i32]) -> Result<(u32, i64), Refusal>
        ensures answers_the_pick_and_its_correlation { result ≡ find_answer (code_meaning self (length gains.now)) gains.now }
        ensures gives_the_best_member { Outcome (code_meaning self (length gains.now)) gains.now result }
    {
        match self {
            Code::Universe => Universe::new(gains.len()).find(gains),
            Code::EvenWeight => EvenWeight::new(gains.len()).find(gains),
            Code::ReedMuller => {
                let m = m_of(gains.len()).ok_or(Refusal::Width)?;
                ReedMuller::new(m).find(gains)
            }
        }
    }
}

// What a task can make with the words that it lists: the code of these words, or the words of even weight, glued with them.
#[derive(Clone, Copy)]
pub enum Listing {
    Listed,
    GluedEven,
}

impl Listing {
    // The best word and its correlation, as many cells as gains.
    pub fn find(self, words: &[u32], gains: &[i32]) -> Result<(u32, i64), Refusal>
        ensures answers_the_pick_and_its_correlation { result ≡ find_answer (listing_meaning self (length gains.now) words.now) gains.now }
        ensures gives_the_best_member { Outcome (listing_meaning self (length gains.now) words.now) gains.now result }
    {
        match self {
            Listing::Listed => Listed::new(gains.len(), words).find(gains),
            Listing::GluedEven => Glue::new(EvenWeight::new(gains.len()), words).find(gains),
        }
    }
}
