ghost use Rattle.std.specs.Prelude.{◌≡◌, ◌<◌, [], length, Ok, Err, MatchOption, MatchResult, slice_index};
ghost use Rattle.finders.specs.Words.{correlation as correlation_of};
ghost use Rattle.finders.specs.WordFinders.{Same};
ghost use Rattle.codes.specs.Listed.{first_listed, listed};
ghost use Rattle.codes.specs.Tables.{listed_in};
ghost use Rattle.codes.specs.ListedLaws.{listed_lawful};

use super::gains::Gains;
use finders::choice::{Greatest, first_best};
use finders::refusals::Refusal;
use finders::words::{WordFinder, WordShape, WordTester};
use table::Table;

mod table;

// Words that are listed one by one, or the refusal of such a list.
#[derive(Clone, Copy)]
pub struct Listed {
    table: Result<Table, Refusal>,
}

impl Listed {
    // The code of these words, each of so many cells: fit for 1 to 32 cells and 1 to 64 words.
    pub fn new(width: usize, words: &[u32]) -> Listed
        ensures means_the_code { Same (⟦<Listed as WordFinder>⟧.meaning result) (listed width words.now) }
    {
        Listed {
            table: Table::new(width, words),
        }
    }

    // The table, or what its list was refused for.
    fn table(&self) -> Result<&Table, Refusal>
        ensures { MatchResult result (λ t. self.now.table ≡ Ok t.now) (λ e. self.now.table ≡ Err e) }
    {
        self.table.as_ref().map_err(|refusal| *refusal)
    }
}

// The first of some words with the greatest correlation, by its index, with that correlation; none where there is no word.
fn best_of(words: &[u32], gains: Gains) -> Option<(usize, Greatest)>
    ensures { MatchOption result (words.now ≡ []) (λ b. (b.0 < length words.now) × (slice_index words.now b.0 ≡ first_listed words.now gains.entry.all.now) × (b.1.0 ≡ correlation_of (first_listed words.now gains.entry.all.now) gains.entry.all.now)) }
{
    first_best(words.iter().map(|word| Greatest(gains.correlation(*word))))
}

impl WordFinder for Listed {
    ghost meaning = { λ l. listed_in l.table };

    ghost lawful = { λ l. listed_lawful l.table };

    fn shape(&self) -> Result<WordShape, Refusal> {
        Ok(self.table()?.shape())
    }

    fn find(&self, gains: &[i32]) -> Result<(u32, i64), Refusal> {
        let table = self.table()?;
        table.shape().check_find(gains)?;
        let words = table.words();
        // a table has some word, so there is a best one
        let (i, Greatest(correlation)) = best_of(words, Gains::new(gains)).unwrap();
        Ok((words[i], correlation))
    }
}

impl WordTester for Listed {
    fn contains(&self, word: u32) -> Result<bool, Refusal> {
        let table = self.table()?;
        table.shape().check_test(word)?;
        Ok(table.words().contains(&word))
    }
}
