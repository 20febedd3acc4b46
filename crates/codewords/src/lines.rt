ghost use Rattle.std.specs.Prelude.{◌≡◌};
ghost use Rattle.tasks.specs.Failures.{UnlessMemory};
ghost use Rattle.tasks.specs.Lines.{texts};
ghost use Rattle.codewords.specs.Lines.{first_slash, CodeAnswer, PartsAnswer, ListingAnswer, TaskAnswer};

use super::found::{Codeword, told};
use super::names::Task;
use super::words::{Code, Listing};
use std::alloc::Global;
use tasks::failure::Failure;
use tasks::numbers::numbers;

// What gains are answered.
fn codewords_asked(heap: Global, code: Code, words: &[&str]) -> Result<Codeword, Failure>
    ensures { UnlessMemory result (CodeAnswer code (texts words.now)) }
{
    let gains = numbers::<i32>(heap, words)?;
    told(code.find(&gains))
}

// Where the first slash stands.
fn slash(words: &[&str]) -> Option<usize>
    ensures is_the_first { result ≡ first_slash (texts words.now) }
{
    words.iter().position(|word| *word == "/")
}

// What a list of words and gains are answered.
fn parts_asked(
    heap: Global,
    listing: Listing,
    list: &[&str],
    gains: &[&str],
) -> Result<Codeword, Failure>
    ensures { UnlessMemory result (PartsAnswer listing (texts list.now) (texts gains.now)) }
{
    let list = numbers::<u32>(heap, list)?;
    let gains = numbers::<i32>(heap, gains)?;
    told(listing.find(&list, &gains))
}

// What a list of words, a slash and gains are answered.
#[tactic(auto, using(crate::proofs::Slashes::parted))]
fn listing_asked(heap: Global, listing: Listing, words: &[&str]) -> Result<Codeword, Failure>
    ensures { UnlessMemory result (ListingAnswer listing (texts words.now)) }
{
    let slash = slash(words).ok_or(Failure::Unreadable)?;
    parts_asked(heap, listing, &words[..slash], &words[slash + 1..])
}

// What the words behind the name of a task are answered: a match, since each of the two kinds of task takes other words.
pub fn asked(heap: Global, task: Task, words: &[&str]) -> Result<Codeword, Failure>
    ensures answers_the_task { UnlessMemory result (TaskAnswer task (texts words.now)) }
{
    match task {
        Task::Codewords(code) => codewords_asked(heap, code, words),
        Task::Listing(listing) => listing_asked(heap, listing, words),
    }
}
