//! Reads a stream of records, and prints what each was answered.
#![tactic(auto)]

ghost use Rattle.std.specs.Prelude.{◌≡◌, IfOk, MatchOption, codes, string_bytes};
ghost use Rattle.transcripts.specs.Transcripts.{line, IsTranscript};

use std::alloc::{AllocError, Global};
use transcripts::input::read_input;
use transcripts::transcript::transcript;

// What is printed for an input: none is one that is too long.
fn printed(heap: Global, input: Option<Vec<u8>>) -> Result<String, AllocError>
    ensures its_transcript_unless_too_long { IfOk result (λ text.
        MatchOption input (string_bytes text ≡ line (codes "too long"))
        (λ bytes. IsTranscript bytes.items (string_bytes text))) }
{
    match input {
        Some(bytes) => transcript(heap, &bytes),
        None => String::from_str(heap, "too long\n"),
    }
}

fn main(rt: HostRuntime) -> anyhow::Result<()> {
    let heap = rt.alloc();
    let input = read_input(heap, &mut rt.reader())?;
    rt.print(printed(heap, input)?)?;
    Ok(())
}
