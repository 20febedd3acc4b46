//! Transcripts of streams of records: what each record was answered, in text.
#![tactic(auto)]

pub mod input;
pub mod laws;
mod reply;
mod session;
pub mod transcript;
