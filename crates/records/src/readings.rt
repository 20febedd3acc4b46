ghost use Rattle.std.specs.Prelude.{◌≡◌, ◌++◌, length, min, take, drop};
ghost use Rattle.records.specs.Records.{readings_in};

/// The most readings that a sense can have: it tells their number in one byte.
pub const MOST_READINGS: usize = u8::MAX as usize;

/// Writes the readings of a sense's bytes to the front of the place, two bytes for each reading, and answers how many
/// there are: as many as the bytes have and the place has room for.
#[tactic(auto, using(crate::proofs::ReadingBytes::readings_length))]
pub fn read_readings(bytes: &[u8], place: &mut [i16]) -> usize
    ensures answers_how_many { result ≡ min (length (readings_in bytes.now)) (length place.old) }
    ensures writes_them_to_the_front { place.new ≡ take result (readings_in bytes.now) ++ drop result place.old }
{
    let count = place.len().min(bytes.len() / 2);
    for i in 0..count {
        place[i] = i16::from_be_bytes([bytes[2 * i], bytes[2 * i + 1]]);
    }
    count
}
