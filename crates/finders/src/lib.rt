// What every finder of this library is: refusals, points and distances, words and correlations, the interfaces with their
// meaning, and the two things that the searches share, rounding one cell and choosing the first best.
#![tactic(auto)]

pub mod laws;
pub mod points;
pub mod refusals;
pub mod words;

// Shared by the library's own crates; no call for its users.
pub mod checks;
pub mod choice;
pub mod lists;
pub mod rounding;
