ghost use Rattle.std.specs.Prelude.{◌<◌, ◌≤◌, length, take, IfOk, IfSome, MatchOption, vec_len};
ghost use Rattle.std.specs.Io.KnownBytes.{Consumes, IsAtEnd};
ghost use Rattle.transcripts.specs.Inputs.{AreGiven};

use std::alloc::Global;
use std::io;
use std::io::{ErrorKind, Read};

/// The longest input that is read, in bytes.
pub const MOST_BYTES: usize = 65_536;

/// All the bytes that a reader gives, or none where they are more than `MOST_BYTES`. No more than so many are ever in
/// memory.
pub fn read_input<R: Read>(heap: Global, reader: &mut R) -> io::Result<Option<Vec<u8>>>
    ensures no_more_than_so_many { IfOk result (λ input. IfSome input (λ bytes. vec_len bytes ≤ 65536)) }
    ensures all_that_the_reader_gives { IfOk result (λ input. IfSome (R.remaining reader.old) (λ given.
        MatchOption input (65536 < length given) (λ bytes. AreGiven 65536 given bytes.items))) }
{
    let mut bytes = vec![in heap; 0u8; MOST_BYTES]?;
    let Some(count) = read_all(reader, &mut bytes)? else {
        return Ok(None);
    };
    bytes.truncate(count);
    Ok(Some(bytes))
}

// Reads all to the front of the buffer, and answers how many bytes they are, or none where the buffer is too short.
fn read_all<R: Read>(reader: &mut R, buffer: &mut [u8]) -> io::Result<Option<usize>>
    requires has_room { 0 < length buffer.old }
    ensures within { IfOk result (λ read. IfSome read (λ count. count ≤ length buffer.new)) }
    ensures all_that_the_reader_gives { IfOk result (λ read. IfSome (R.remaining reader.old) (λ given.
        let most = length buffer.new in
        MatchOption read (most < length given) (λ count. AreGiven most given (take count buffer.new)))) }
{
    let count = fill(reader, buffer)?;
    // A byte more is written over the last, which is not wanted then, since the input is too long.
    if count == buffer.len() && fill(reader, &mut buffer[count - 1..])? > 0 {
        return Ok(None);
    }
    Ok(Some(count))
}

// Fills the buffer from its front, until it is full or the reader ends, and answers how many bytes that took.
fn fill<R: Read>(reader: &mut R, buffer: &mut [u8]) -> io::Result<usize>
    ensures within { IfOk result (λ count. count ≤ length buffer.new) }
    ensures front { IfOk result (λ count.
        Consumes (R.remaining reader.old) (R.remaining reader.new) (take count buffer.new)) }
    ensures to_the_end { IfOk result (λ count. count < length buffer.new → IsAtEnd (R.remaining reader.new)) }
{
    let mut count = 0;
    for _ in 0..u64::MAX {
        match reader.read(&mut buffer[count..]) {
            Ok(0) => return Ok(count),
            Ok(more) => count += more,
            Err(error) if error.kind() == ErrorKind::Interrupted => {}
            Err(error) => return Err(error),
        }
    }
    // only after 2^64 reads, nearly all of them interrupted
    Err(io::Error::from(ErrorKind::TimedOut))
}
