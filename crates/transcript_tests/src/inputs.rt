use std::alloc::{AllocError, Global};
use std::io;
use std::io::{ErrorKind, Read};
use std::test::Fail;
use transcripts::input::{MOST_BYTES, read_input};

// Gives a few bytes a call. Once, where so many are left, it fails by this error.
#[derive(Drop)]
struct Few<'a> {
    left: &'a [u8],
    fails: Option<(usize, ErrorKind)>,
}

impl Read for Few<'_> {
    fn read(&mut self, buf: &mut [u8]) -> io::Result<usize> {
        if let Some((left, kind)) = self.fails {
            if self.left.len() <= left {
                self.fails = None;
                return Err(kind.into());
            }
        }
        let count = self.left.len().min(buf.len()).min(7);
        let (given, left) = self.left.split_at(count);
        buf[..count].copy_from_slice(given);
        self.left = left;
        Ok(count)
    }
}

// So many bytes, of which neighbours differ.
fn some_bytes(heap: Global, count: u32) -> Result<Vec<u8>, AllocError> {
    let mut bytes = Vec::new(heap);
    for i in 0..count {
        let [_, _, high, low] = i.to_be_bytes();
        bytes.push(high ^ low)?;
    }
    Ok(bytes)
}

// Whether so many bytes are read as they are, and the reader is read to its end.
fn is_read_whole(heap: Global, count: u32) -> io::Result<bool> {
    let bytes = some_bytes(heap, count)?;
    let mut reader = Few {
        left: &bytes,
        fails: None,
    };
    let input = read_input(heap, &mut reader)?;
    Ok(reader.left.is_empty() && input.is_some_and(|input| input == bytes))
}

#[test]
fn an_input_of_up_to_the_most_bytes_is_read_whole(rt: HostRuntime) -> Result<(), Fail> {
    for count in [0, 1, 6, 7, 8, 65_534, 65_535, 65_536] {
        assert!(rt; is_read_whole(rt.alloc(), count)?, "{count}");
    }
    Ok(())
}

#[test]
fn of_a_longer_input_one_byte_more_is_read(rt: HostRuntime) -> Result<(), Fail> {
    let heap = rt.alloc();
    for (count, left) in [(65_537, 0), (65_538, 1), (131_072, 65_535)] {
        let bytes = some_bytes(heap, count)?;
        let mut reader = Few {
            left: &bytes,
            fails: None,
        };
        assert!(rt; read_input(heap, &mut reader)?.is_none(), "{count}");
        assert_eq!(rt; reader.left.len(), left, "{count}");
    }
    Ok(())
}

#[test]
fn a_reader_of_all_at_once_is_read_alike(rt: HostRuntime) -> Result<(), Fail> {
    let heap = rt.alloc();
    let bytes = some_bytes(heap, 65_537)?;
    let mut reader = bytes.as_slice();
    assert!(rt; read_input(heap, &mut reader)?.is_none());
    let whole = bytes.get(..MOST_BYTES).ok_or("too few")?;
    let mut reader = whole;
    let input = read_input(heap, &mut reader)?;
    assert!(rt; input.is_some_and(|input| input.as_slice() == whole));
    Ok(())
}

#[test]
fn a_failed_read_is_told_and_an_interrupted_one_made_again(rt: HostRuntime) -> Result<(), Fail> {
    let heap = rt.alloc();
    let bytes = some_bytes(heap, 65_536)?;
    // before the first byte, in the middle, at the end, and when a byte more is asked for
    for left in [65_536, 40_000, 2, 0] {
        let fails = Some((left, ErrorKind::BrokenPipe));
        let mut reader = Few {
            left: &bytes,
            fails,
        };
        let input = read_input(heap, &mut reader);
        assert!(rt;
            input.is_err_and(|error| error.kind() == ErrorKind::BrokenPipe),
            "{left}"
        );
        let fails = Some((left, ErrorKind::Interrupted));
        let mut reader = Few {
            left: &bytes,
            fails,
        };
        let input = read_input(heap, &mut reader)?;
        assert!(rt; input.is_some_and(|input| input == bytes), "{left}");
    }
    Ok(())
}
