ghost use Rattle.std.specs.Prelude.{◌≡◌, ◌^◌, ◌≤◌, true, length, Ok, Err, MatchResult};
ghost use Rattle.finders.specs.Points.{within};
ghost use Rattle.finders.specs.WordFinders.{find_answer, Contains, Same};
ghost use Rattle.code_layers.specs.Glue.{glue_sum, negated, glued, glue_words, glued_by};
ghost use Rattle.code_layers.specs.GlueFinds.{Granted, Tested};
ghost use Rattle.code_layers.specs.GlueLaws.{glued_lawful};

use finders::checks::all_words_fit;
use finders::choice::{FirstBest, Greatest};
use finders::lists::WordList;
use finders::points::MOST_CELLS;
use finders::refusals::Refusal;
use finders::words::{WordFinder, WordShape, WordTester};

// The most glue words.
const MOST_WORDS: usize = 7;

// The words of a finder, each moved by each sum of some glue words. Of too many glue words, no list is held.
#[derive(Clone, Copy, Drop)]
pub struct Glue<F> {
    below: F,
    words: Option<WordList<MOST_WORDS>>,
}

impl<F: WordFinder> Glue<F> {
    // Fit where what is below is, for no more than 7 glue words, which are copied, with no digit beyond its width.
    pub fn new(below: F, words: &[u32]) -> Glue<F>
        ensures means_the_glued_words { Same (⟦<Glue<F> as WordFinder>⟧.meaning result) (glued words.now (F.meaning below)) }
    {
        Glue {
            below,
            words: WordList::new(words),
        }
    }

    // The glue words, or the refusal of so many.
    fn words(&self) -> Result<&[u32], Refusal>
        ensures { MatchResult result (λ ws. glue_words self.now.words ≡ Ok ws.now) (λ e. glue_words self.now.words ≡ Err e) }
    {
        let words = self.words.as_ref().ok_or(Refusal::GlueCount)?;
        Ok(words.all())
    }

    // The first of the best words that the sums move, in the order of their numbers.
    fn best(&self, words: &[u32], gains: &[i32]) -> Result<(u32, i64), Refusal>
        requires granted { Granted words.now (F.meaning self.now.below) gains.now }
        ensures { result ≡ find_answer (glued words.now (F.meaning self.now.below)) gains.now }
    {
        let mut place = [0; MOST_CELLS];
        let negated = &mut place[..gains.len()];
        let mut best = FirstBest::none();
        for j in 0..sum_count(words) {
            let sum = glue_sum(words, j);
            negated.copy_from_slice(gains);
            negate(negated, sum);
            let (word, correlation) = self.below.find(negated)?;
            best.offer(sum ^ word, Greatest(correlation));
        }
        // there is a sum, that of no word, so there is a best word
        let (word, Greatest(correlation)) = best.held.unwrap();
        Ok((word, correlation))
    }
}

// How many sums of glue words there are: one for each choice of some of them.
fn sum_count(words: &[u32]) -> u32
    requires few { length words.now ≤ 7 }
    ensures { result ≡ 2 ^ length words.now }
{
    1 << words.len()
}

// The XOR of the glue words whose bit in j is 1.
#[tactic(auto, using(crate::proofs::GlueSums::sum_more))]
fn glue_sum(words: &[u32], j: u32) -> u32
    ensures { result ≡ glue_sum words.now j }
{
    let mut sum = 0;
    let mut rest = j;
    for word in words {
        if rest % 2 != 0 {
            sum ^= *word;
        }
        rest /= 2;
    }
    sum
}

// Negates the gains of those cells that have digit 1 in a word.
fn negate(gains: &mut [i32], word: u32)
    requires small { within (2 ^ 30) gains.old ≡ true }
    ensures { gains.new ≡ negated word gains.old }
{
    let mut rest = word;
    for gain in gains.iter_mut() {
        if rest % 2 != 0 {
            *gain = -*gain;
        }
        rest /= 2;
    }
}

impl<F: WordFinder> WordFinder for Glue<F> {
    ghost meaning = { λ g. glued_by (glue_words g.words) (F.meaning g.below) };

    ghost lawful = { λ g. glued_lawful (glue_words g.words) (F.meaning g.below) (F.lawful g.below) };

    fn shape(&self) -> Result<WordShape, Refusal> {
        let below = self.below.shape()?;
        if !all_words_fit(self.words()?, below.width) {
            return Err(Refusal::Entry);
        }
        Ok(below)
    }

    fn find(&self, gains: &[i32]) -> Result<(u32, i64), Refusal> {
        self.shape()?.check_find(gains)?;
        self.best(self.words()?, gains)
    }
}

impl<F: WordTester> Glue<F> {
    // Whether some sum moves a word to one of those below.
    fn moves_below(&self, words: &[u32], word: u32) -> Result<bool, Refusal>
        requires tested { Tested words.now (F.WordFinder.meaning self.now.below) word }
        ensures { Contains (glued words.now (F.WordFinder.meaning self.now.below)) word result }
    {
        for j in 0..sum_count(words) {
            if self.below.contains(glue_sum(words, j) ^ word)? {
                return Ok(true);
            }
        }
        Ok(false)
    }
}

impl<F: WordTester> WordTester for Glue<F> {
    fn contains(&self, word: u32) -> Result<bool, Refusal> {
        self.shape()?.check_test(word)?;
        self.moves_below(self.words()?, word)
    }
}
