//! Tests of the reader of streams of records, run on examples.
#![tactic(auto)]

#[cfg(test)]
mod tests {
    use records::reader::{Ending, ReadRecord, read_record};
    use records::readings::{MOST_READINGS, read_readings};
    use records::record::Record;

    // What a whole record is answered, and what stands behind it.
    fn read<'a>(record: Record<'a>, next: Option<usize>) -> Result<ReadRecord<'a>, Ending> {
        Ok(ReadRecord { record, next })
    }

    // Whether the reader stops at this place wherever the input is cut behind it.
    fn stops_wherever_it_is_cut(input: &[u8], place: usize) -> bool {
        (place.saturating_add(1)..input.len()).all(|len| match input.get(..len) {
            Some(front) => read_record(front, Some(place)) == Err(Ending::Stop(place)),
            None => false,
        })
    }

    #[test]
    fn the_worked_stream_is_read_record_by_record(rt: HostRuntime) {
        let input = [
            0xA5, 0x01, 0x02, 0x02, 0x00, 0x00, 0x00, 0x0A, // opens a block
            0xA5, 0x04, // decides
            0xA5, 0x02, 0x02, 0x00, 0x0F, 0x00, 0x04, // a sense
            0xA5, 0x02, 0x02, 0x00, 0x05, 0x00, 0x06, // another
            0xA5, 0x04, // decides
            0xA5, 0x03, // clears
        ];
        let opening = Record::Open {
            kind: 2,
            cells: 2,
            step: 10,
        };
        let first = Record::Sense {
            place: 13,
            bytes: &[0, 15, 0, 4],
        };
        let second = Record::Sense {
            place: 20,
            bytes: &[0, 5, 0, 6],
        };
        assert_eq!(rt; read_record(&input, Some(0)), read(opening, Some(8)));
        assert_eq!(rt;
            read_record(&input, Some(8)),
            read(Record::Decide, Some(10))
        );
        assert_eq!(rt; read_record(&input, Some(10)), read(first, Some(17)));
        assert_eq!(rt; read_record(&input, Some(17)), read(second, Some(24)));
        assert_eq!(rt;
            read_record(&input, Some(24)),
            read(Record::Decide, Some(26))
        );
        assert_eq!(rt; read_record(&input, Some(26)), read(Record::Clear, None));
        assert_eq!(rt; read_record(&input, None), Err(Ending::End));
    }

    #[test]
    fn numbers_are_big_endian(rt: HostRuntime) {
        let opening = Record::Open {
            kind: 255,
            cells: 33,
            step: 0xFEDC_BA98,
        };
        assert_eq!(rt;
            read_record(&[0xA5, 0x01, 0xFF, 0x21, 0xFE, 0xDC, 0xBA, 0x98], Some(0)),
            read(opening, None)
        );
        let mut place = [77; 6];
        let bytes = [0xFF, 0xF1, 0x80, 0x00, 0x7F, 0xFF, 0xFF, 0xFF, 0x01, 0x02];
        assert_eq!(rt; read_readings(&bytes, &mut place), 5);
        assert_eq!(rt; place, [-15, -32768, 32767, -1, 258, 77]);
    }

    #[test]
    fn readings_are_as_many_as_there_are_and_have_room(rt: HostRuntime) {
        let bytes = [0, 15, 0, 4, 0xFF];
        let mut place = [77; 3];
        assert_eq!(rt; read_readings(&bytes, &mut place), 2);
        assert_eq!(rt; place, [15, 4, 77]);
        let mut narrow = [77; 1];
        assert_eq!(rt; read_readings(&bytes, &mut narrow), 1);
        assert_eq!(rt; narrow, [15]);
        assert_eq!(rt; read_readings(&bytes, &mut []), 0);
        assert_eq!(rt; read_readings(&[], &mut narrow), 0);
        assert_eq!(rt; read_readings(&[3], &mut narrow), 0);
        assert_eq!(rt; narrow, [15]);
    }

    #[test]
    fn a_record_that_is_cut_short_stops_at_its_first_byte(rt: HostRuntime) {
        let records: [&[u8]; 5] = [
            &[0xA5, 0x01, 0x02, 0x02, 0x00, 0x00, 0x00, 0x0A],
            &[0xA5, 0x02, 0x02, 0xA5, 0x03, 0xA5, 0x04],
            &[0xA5, 0x02, 0x00],
            &[0xA5, 0x03],
            &[0xA5, 0x04],
        ];
        for record in records {
            assert!(rt; read_record(record, Some(0)).is_ok());
            assert!(rt; stops_wherever_it_is_cut(record, 0));
        }
        // behind another record, which is read
        let behind: [&[u8]; 5] = [
            &[0xA5, 0x04, 0xA5, 0x01, 0x02, 0x02, 0x00, 0x00, 0x00, 0x0A],
            &[0xA5, 0x04, 0xA5, 0x02, 0x02, 0xA5, 0x03, 0xA5, 0x04],
            &[0xA5, 0x04, 0xA5, 0x02, 0x00],
            &[0xA5, 0x04, 0xA5, 0x03],
            &[0xA5, 0x04, 0xA5, 0x04],
        ];
        for record in behind {
            assert_eq!(rt; read_record(record, Some(0)), read(Record::Decide, Some(2)));
            assert!(rt; read_record(record, Some(2)).is_ok());
            assert!(rt; stops_wherever_it_is_cut(record, 2));
        }
    }

    #[test]
    fn an_unknown_mark_stops_at_its_place(rt: HostRuntime) {
        let inputs: [&[u8]; 8] = [
            &[0xA5],
            &[0x00],
            &[0xA5, 0x00],
            &[0xA5, 0x05],
            &[0xA5, 0xA5, 0x04],
            &[0x5A, 0x01, 0x02, 0x02, 0x00, 0x00, 0x00, 0x0A],
            &[0x5A, 0x04],
            &[0x04, 0xA5],
        ];
        for input in inputs {
            assert_eq!(rt; read_record(input, Some(0)), Err(Ending::Stop(0)));
        }
        let input = [0xA5, 0x03, 0xA5, 0x00, 0xA5, 0x04];
        assert_eq!(rt; read_record(&input, Some(0)), read(Record::Clear, Some(2)));
        assert_eq!(rt; read_record(&input, Some(2)), Err(Ending::Stop(2)));
        // the place alone says where a record is looked for
        assert_eq!(rt; read_record(&input, Some(1)), Err(Ending::Stop(1)));
        assert_eq!(rt; read_record(&input, Some(4)), read(Record::Decide, None));
        assert_eq!(rt; read_record(&input, Some(5)), Err(Ending::Stop(5)));
    }

    #[test]
    fn a_sense_has_from_0_to_255_cells(rt: HostRuntime) {
        let none = Record::Sense {
            place: 3,
            bytes: &[],
        };
        assert_eq!(rt; read_record(&[0xA5, 0x02, 0x00], Some(0)), read(none, None));
        assert_eq!(rt;
            read_record(&[0xA5, 0x02, 0x00, 0xA5], Some(0)),
            read(none, Some(3))
        );
        let mut input = [9; 514];
        input[0] = 0xA5;
        input[1] = 0x02;
        input[2] = 0xFF;
        let most = Record::Sense {
            place: 3,
            bytes: &[9; 510],
        };
        let mut place = [77; MOST_READINGS + 1];
        assert_eq!(rt; read_record(&input, Some(0)), read(most, Some(513)));
        assert!(rt; stops_wherever_it_is_cut(&input[..513], 0));
        assert_eq!(rt; read_readings(&input[3..513], &mut place), MOST_READINGS);
        let mut expected = [0x0909; MOST_READINGS + 1];
        expected[MOST_READINGS] = 77;
        assert_eq!(rt; place, expected);
    }

    #[test]
    fn an_input_ends_behind_its_last_byte(rt: HostRuntime) {
        for place in [None, Some(0), Some(1), Some(usize::MAX)] {
            assert_eq!(rt; read_record(&[], place), Err(Ending::End));
        }
        for place in [None, Some(2), Some(3), Some(4), Some(usize::MAX)] {
            assert_eq!(rt; read_record(&[0xA5, 0x04], place), Err(Ending::End));
        }
    }
}
