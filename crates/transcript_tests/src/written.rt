use std::alloc::{AllocError, Global};
use transcripts::transcript::transcript;

// A record, and what it has in it.
#[derive(Clone, Copy)]
pub(super) enum Record<'a> {
    // the kind, the number of cells and the step
    Open(u8, u8, u32),
    // the readings, at most 255
    Sense(&'a [i16]),
    Clear,
    Decide,
}

impl Record<'_> {
    fn write_to(&self, stream: &mut Vec<u8>) -> Result<(), AllocError> {
        match self {
            Record::Open(kind, cells, step) => {
                stream.extend_from_slice(&[0xA5, 0x01, *kind, *cells])?;
                stream.extend_from_slice(&step.to_be_bytes())?;
            }
            Record::Sense(readings) => {
                let cells = u8::try_from(readings.len()).unwrap_or(u8::MAX);
                stream.extend_from_slice(&[0xA5, 0x02, cells])?;
                for reading in readings.iter() {
                    stream.extend_from_slice(&reading.to_be_bytes())?;
                }
            }
            Record::Clear => stream.extend_from_slice(&[0xA5, 0x03])?,
            Record::Decide => stream.extend_from_slice(&[0xA5, 0x04])?,
        }
        Ok(())
    }
}

// The bytes of records.
pub(super) fn stream(heap: Global, records: &[Record<'_>]) -> Result<Vec<u8>, AllocError> {
    let mut stream = Vec::new(heap);
    for record in records {
        record.write_to(&mut stream)?;
    }
    Ok(stream)
}

// The transcript of records.
pub(super) fn told(heap: Global, records: &[Record<'_>]) -> Result<String, AllocError> {
    transcript(heap, &stream(heap, records)?)
}
