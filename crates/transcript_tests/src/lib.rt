//! Tests of transcripts of whole streams, and of how an input is read, run on examples.
#![tactic(auto)]

#[cfg(test)]
mod inputs;
#[cfg(test)]
mod streams;
#[cfg(test)]
mod written;
