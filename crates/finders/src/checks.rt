ghost use Rattle.std.specs.Prelude.{◌≡◌, not};
ghost use Rattle.finders.specs.Points.{within};
ghost use Rattle.finders.specs.Sizes.{width_checked, list_checked};
ghost use Rattle.finders.specs.PointFinders.{find_checked, test_checked};
ghost use Rattle.finders.specs.Words.{fits, all_fit};
ghost use Rattle.finders.specs.WordFinders.{find_checked as word_find_checked, test_checked as word_test_checked};

use super::points::{MOST_CELLS, PointShape};
use super::refusals::Refusal;
use super::words::WordShape;

// Whether no number is larger in size than a limit.
pub fn all_within(numbers: &[i32], limit: u32) -> bool
    ensures tells_whether_all_are_within { result ≡ within limit numbers.now }
{
    numbers.iter().all(|number| number.unsigned_abs() <= limit)
}

// What a number of cells is refused for.
pub fn check_width(width: usize) -> Result<(), Refusal>
    ensures is_refused_unless_in_range { result ≡ width_checked width }
{
    if width < 1 || width > MOST_CELLS {
        return Err(Refusal::Width);
    }
    Ok(())
}

// Whether a word has a digit 1 beyond so many cells.
pub fn has_digit_beyond(word: u32, width: usize) -> bool
    ensures tells_whether_a_digit_is_beyond { result ≡ not (fits width word) }
{
    width < MOST_CELLS && word >> width != 0
}

// Whether no word of a list has a digit 1 beyond so many cells.
pub fn all_words_fit(words: &[u32], width: usize) -> bool
    ensures tells_whether_all_fit { result ≡ all_fit width words.now }
{
    words.iter().all(|word| !has_digit_beyond(*word, width))
}

// What a list is refused for that is to have so many numbers, none larger in size than a limit.
fn check_list(numbers: &[i32], width: usize, limit: u32) -> Result<(), Refusal>
    ensures is_the_first_refusal { result ≡ list_checked width limit numbers.now }
{
    if numbers.len() != width {
        return Err(Refusal::Length);
    }
    if !all_within(numbers, limit) {
        return Err(Refusal::Magnitude);
    }
    Ok(())
}

impl PointShape {
    // What a find of these readings at this step, into a place of that length, is refused for.
    pub fn check_find(self, readings: &[i32], step: u32, place_len: usize) -> Result<(), Refusal>
        ensures is_the_first_refusal { result ≡ find_checked self.width self.reading_limit self.step_limit readings.now step place_len }
    {
        if place_len != self.width {
            return Err(Refusal::Length);
        }
        check_list(readings, self.width, self.reading_limit)?;
        if step < 1 || step > self.step_limit {
            return Err(Refusal::Step);
        }
        Ok(())
    }

    // What a test of this point is refused for.
    pub fn check_test(self, point: &[i32]) -> Result<(), Refusal>
        ensures is_the_first_refusal { result ≡ test_checked self.width self.reading_limit point.now }
    {
        check_list(point, self.width, self.reading_limit)
    }
}

impl WordShape {
    // What a find of these gains is refused for.
    pub fn check_find(self, gains: &[i32]) -> Result<(), Refusal>
        ensures is_the_first_refusal { result ≡ word_find_checked self.width self.gain_limit gains.now }
    {
        check_list(gains, self.width, self.gain_limit)
    }

    // What a test of this word is refused for.
    pub fn check_test(self, word: u32) -> Result<(), Refusal>
        ensures is_the_first_refusal { result ≡ word_test_checked self.width word }
    {
        if has_digit_beyond(word, self.width) {
            return Err(Refusal::Entry);
        }
        Ok(())
    }
}
