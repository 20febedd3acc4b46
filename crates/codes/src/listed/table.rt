ghost use Rattle.std.specs.Prelude.{◌≡◌, ◌≤◌, true, length};
ghost use Rattle.finders.specs.Lists.{words_in as list_of};
ghost use Rattle.finders.specs.Sizes.{in_range};
ghost use Rattle.finders.specs.Words.{all_fit};
ghost use Rattle.codes.specs.Codes.{shape};
ghost use Rattle.codes.specs.Listed.{few, listed};

use super::super::shapes::shape;
use finders::checks::{all_words_fit, check_width};
use finders::lists::WordList;
use finders::refusals::Refusal;
use finders::words::WordShape;

// The most words of a list.
const MOST_WORDS: usize = 64;

// Some words of a width, listed.
#[derive(Clone, Copy)]
pub(super) struct Table {
    width: usize,
    list: WordList<MOST_WORDS>,
    ghost sized: { in_range width ≡ true },
    ghost counted: { few (length (list_of list)) ≡ true },
    ghost fitting: { all_fit width (list_of list) ≡ true },
}

impl Table {
    ghost use Rattle.finders.specs.WordFinders.{Same};
    ghost use Rattle.codes.specs.Tables.{listed_in, words_in};

    // A copy of the words, or the first refusal that applies to them.
    pub(super) fn new(width: usize, words: &[u32]) -> Result<Table, Refusal>
        ensures { Same (listed_in result) (listed width words.now) }
    {
        check_width(width)?;
        if words.is_empty() {
            return Err(Refusal::WordCount);
        }
        let list = WordList::new(words).ok_or(Refusal::WordCount)?;
        if !all_words_fit(words, width) {
            return Err(Refusal::Entry);
        }
        Ok(Table { width, list })
    }

    pub(super) fn words(&self) -> &[u32]
        ensures words { result.now ≡ words_in self.now }
        ensures some_word { 1 ≤ length result.now }
    {
        self.list.all()
    }

    pub(super) fn shape(&self) -> WordShape
        ensures { result ≡ shape self.now.width }
    {
        shape(self.width)
    }
}
