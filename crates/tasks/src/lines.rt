ghost use Rattle.std.specs.Prelude.{IfOk, string_bytes};
ghost use Rattle.tasks.specs.Lines.{texts, Words, AsksBy, AnswersByName, Responds};

use super::failure::Failure;
use finders::refusals::Refusal;
use std::alloc::{AllocError, Global};
use std::fmt;
use std::str::FromStr;

// The words of a line.
pub fn words<'a>(heap: Global, line: &'a str) -> Result<Vec<&'a str>, AllocError>
    ensures are_the_words_of_the_line { IfOk result (λ v. Words line.now (texts v.items)) }
{
    line.split_whitespace().collect(heap)
}

// What the words of a line are answered: the first names what `ask` asks of the others.
fn answer<K, T, F>(words: &[&str], ask: F) -> Result<T, Failure>
where
    K: FromStr<Err = Refusal>,
    F: FnOnce(K, &[&str]) -> Result<T, Failure>,
    requires { F.IsAlwaysCallable ask }
    ensures { AnswersByName K.from_str_gives (AsksBy F.FnOnce ask) (texts words.now) result }
{
    let (name, rest) = words.split_first().ok_or(Refusal::Kind)?;
    ask(name.parse()?, rest)
}

// The line that is printed for a line that was read.
pub fn respond<K, T, F>(heap: Global, line: &str, ask: F) -> Result<String, AllocError>
where
    K: FromStr<Err = Refusal>,
    T: fmt::Display + Drop,
    F: FnOnce(K, &[&str]) -> Result<T, Failure>,
    requires can_ask { F.IsAlwaysCallable ask }
    ensures prints_the_answer_to_the_words { IfOk result (λ s. Responds (AnswersByName K.from_str_gives (AsksBy F.FnOnce ask)) T.output line.now (string_bytes s)) }
{
    match answer(&words(heap, line)?, ask) {
        Ok(found) => found.to_string(heap),
        Err(Failure::Memory(error)) => Err(error),
        Err(failure) => failure.to_string(heap),
    }
}
