ghost use Rattle.tasks.specs.Lines.{texts};
ghost use Rattle.tasks.specs.Numbers.{Parses};

use super::failure::Failure;
use std::alloc::Global;
use std::num::ParseIntError;
use std::str::FromStr;

// The numbers that the words write. A loop with `?`, since of a `collect` into a `Result` nothing says that it fails where a word does.
pub fn numbers<T: FromStr<Err = ParseIntError> + Drop>(
    heap: Global,
    words: &[&str],
) -> Result<Vec<T>, Failure>
    ensures reads_the_numbers { Parses T.from_str_gives (texts words.now) result }
{
    let mut numbers = Vec::new(heap);
    for word in words {
        numbers.push(word.parse::<T>()?)?;
    }
    Ok(numbers)
}
