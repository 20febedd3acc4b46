// Tasks in text: the words of a line, the numbers that they write, why a task is not answered, and the line that is printed
// for it.
#![tactic(auto)]

pub mod failure;
pub mod lines;
pub mod numbers;
