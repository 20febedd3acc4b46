ghost use Rattle.std.specs.Prelude.{length, IfOk, Some, string_bytes};
ghost use Rattle.tasks.specs.Failures.{UnlessMemory};
ghost use Rattle.tasks.specs.Lines.{texts, Responds};
ghost use Rattle.nearest.specs.Found.{found_text};
ghost use Rattle.nearest.specs.Lines.{Finds, Asks, TaskAnswer, Answers};
ghost use Rattle.nearest.specs.Sets.{meaning_of};

use super::found::{Found, Nearest};
use super::names::Task;
use super::sets::Lattice;
use std::alloc::{AllocError, Global};
use tasks::failure::Failure;
use tasks::numbers::numbers;

// The nearest point to readings at a step.
fn nearest(heap: Global, lattice: Lattice, step: u32, readings: &[i32]) -> Result<Nearest, Failure>
    ensures { UnlessMemory result (Finds (meaning_of lattice (length readings.now)) readings.now step) }
{
    let mut point = vec![in heap; 0i32; readings.len()]?;
    let distance = lattice.find(readings, step, &mut point)?;
    Ok(Nearest { point, distance })
}

// What a step and readings are answered.
fn point_asked(heap: Global, lattice: Lattice, words: &[&str]) -> Result<Nearest, Failure>
    ensures { UnlessMemory result (Asks lattice (texts words.now)) }
{
    let (step, rest) = words.split_first().ok_or(Failure::Unreadable)?;
    let step = step.parse::<u32>()?;
    nearest(heap, lattice, step, &numbers::<i32>(heap, rest)?)
}

// What the words behind the name of a task are answered: a match, since points and words are found by other calls.
fn asked(heap: Global, task: Task, words: &[&str]) -> Result<Found, Failure>
    ensures { UnlessMemory result (TaskAnswer task (texts words.now)) }
{
    match task {
        Task::Points(lattice) => Ok(Found::Point(point_asked(heap, lattice, words)?)),
        Task::Words(task) => Ok(Found::Word(codewords::lines::asked(heap, task, words)?)),
    }
}

// The line that is printed for a line that was read.
pub fn respond(heap: Global, line: &str) -> Result<String, AllocError>
    ensures answers_the_words_of_the_line { IfOk result (λ s. Responds Answers (λ found. Some (found_text found)) line.now (string_bytes s)) }
{
    tasks::lines::respond(heap, line, |task, words| asked(heap, task, words))
}
