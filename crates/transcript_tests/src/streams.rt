use super::written::Record::{Clear, Decide, Open, Sense};
use super::written::{stream, told};
use std::test::Fail;
use transcripts::input::MOST_BYTES;
use transcripts::transcript::transcript;

// An open of D in two cells, two senses, a decide and a clear.
const WORKED: [u8; 28] = [
    0xA5, 0x01, 2, 2, 0, 0, 0, 10, 0xA5, 0x04, 0xA5, 0x02, 2, 0, 15, 0, 4, 0xA5, 0x02, 2, 0, 5, 0,
    6, 0xA5, 0x04, 0xA5, 0x03,
];

#[test]
fn the_worked_stream_is_answered(rt: HostRuntime) -> Result<(), Fail> {
    let heap = rt.alloc();
    let text = "open 2 2 10\nrefused 12\nsense 1\nsense 2\npoint 1 1 total 102\nclear 2\nend\n";
    assert_eq!(rt; transcript(heap, &WORKED)?.as_str(), text);
    let records = [
        Open(2, 2, 10),
        Decide,
        Sense(&[15, 4]),
        Sense(&[5, 6]),
        Decide,
        Clear,
    ];
    assert_eq!(rt; stream(heap, &records)?.as_slice(), WORKED.as_slice());
    Ok(())
}

#[test]
fn an_empty_stream_ends(rt: HostRuntime) -> Result<(), Fail> {
    assert_eq!(rt; transcript(rt.alloc(), &[])?.as_str(), "end\n");
    Ok(())
}

#[test]
fn an_open_is_refused_in_the_stated_order(rt: HostRuntime) -> Result<(), Fail> {
    let heap = rt.alloc();
    let refused = [
        // an unknown kind first, whatever else there is
        (0, 8, 10, 14),
        (5, 8, 10, 14),
        (255, 8, 10, 14),
        (0, 0, 0, 14),
        (5, 33, 4294967295, 14),
        // then E8 of other than eight cells
        (3, 7, 10, 2),
        (4, 7, 10, 2),
        (3, 9, 10, 2),
        (4, 9, 10, 2),
        (3, 0, 0, 2),
        (4, 33, 16385, 2),
        // then the width
        (1, 0, 10, 1),
        (2, 0, 10, 1),
        (1, 33, 10, 1),
        (2, 33, 10, 1),
        (1, 255, 0, 1),
        (2, 33, 16385, 1),
        // then the step
        (1, 2, 0, 4),
        (2, 2, 0, 4),
        (3, 8, 0, 4),
        (4, 8, 0, 4),
        (1, 2, 16385, 10),
        (2, 2, 16385, 10),
        (3, 8, 8193, 10),
        (4, 8, 16385, 10),
        (1, 2, 4294967295, 10),
        (3, 8, 16384, 10),
    ];
    for (kind, cells, step, number) in refused {
        let text = format!(in heap; "refused {number}\nend\n")?;
        assert_eq!(rt;
            told(heap, &[Open(kind, cells, step)])?,
            text,
            "{kind} {cells} {step}"
        );
    }
    Ok(())
}

#[test]
fn an_open_is_granted_within_the_limits(rt: HostRuntime) -> Result<(), Fail> {
    let heap = rt.alloc();
    let granted = [
        (1, 1, 1),
        (2, 1, 1),
        (1, 32, 16384),
        (2, 32, 16384),
        (3, 8, 1),
        (3, 8, 8192),
        (4, 8, 1),
        (4, 8, 16384),
    ];
    for (kind, cells, step) in granted {
        let text = format!(in heap; "open {kind} {cells} {step}\nend\n")?;
        assert_eq!(rt; told(heap, &[Open(kind, cells, step)])?, text);
    }
    Ok(())
}

#[test]
fn before_a_granted_open_each_record_is_refused_by_13(rt: HostRuntime) -> Result<(), Fail> {
    let heap = rt.alloc();
    let records = [
        Sense(&[15, 4]),
        Sense(&[]),
        Sense(&[5; 255]),
        Clear,
        Decide,
        Open(2, 33, 10),
        Sense(&[15, 4]),
        Clear,
        Decide,
        Open(2, 2, 10),
        Sense(&[15, 4]),
    ];
    let text = "refused 13\nrefused 13\nrefused 13\nrefused 13\nrefused 13\nrefused 1\n\
        refused 13\nrefused 13\nrefused 13\nopen 2 2 10\nsense 1\nend\n";
    assert_eq!(rt; told(heap, &records)?.as_str(), text);
    Ok(())
}

#[test]
fn a_sense_of_other_cells_is_refused_by_2(rt: HostRuntime) -> Result<(), Fail> {
    let heap = rt.alloc();
    let records = [
        Open(2, 2, 10),
        Sense(&[]),
        Sense(&[5]),
        Sense(&[15, 4]),
        Sense(&[5; 3]),
        Sense(&[5; 33]),
        Sense(&[5; 255]),
        Sense(&[5, 6]),
        Decide,
    ];
    let text = "open 2 2 10\nrefused 2\nrefused 2\nsense 1\nrefused 2\nrefused 2\nrefused 2\n\
        sense 2\npoint 1 1 total 102\nend\n";
    assert_eq!(rt; told(heap, &records)?.as_str(), text);
    Ok(())
}

#[test]
fn the_65th_sense_is_refused_by_11(rt: HostRuntime) -> Result<(), Fail> {
    let heap = rt.alloc();
    let mut bytes = stream(heap, &[Open(1, 1, 3)])?;
    let mut text = String::from_str(heap, "open 1 1 3\n")?;
    for count in 1..65 {
        bytes.extend_from_slice(&stream(heap, &[Sense(&[7])])?)?;
        text.push_str(&format!(in heap; "sense {count}\n")?)?;
    }
    // the reading 7 is one above two steps: 64 times 1
    let more = [
        Sense(&[7]),
        Sense(&[7, 7]),
        Decide,
        Sense(&[-500]),
        Decide,
        Clear,
        Sense(&[7]),
        Decide,
    ];
    bytes.extend_from_slice(&stream(heap, &more)?)?;
    text.push_str("refused 11\nrefused 2\npoint 2 total 64\nrefused 11\npoint 2 total 64\n")?;
    text.push_str("clear 64\nsense 1\npoint 2 total 1\nend\n")?;
    assert_eq!(rt; transcript(heap, &bytes)?, text);
    Ok(())
}

#[test]
fn a_decide_with_no_sense_is_refused_by_12(rt: HostRuntime) -> Result<(), Fail> {
    let heap = rt.alloc();
    let records = [
        Open(1, 2, 10),
        Decide,
        Clear,
        Sense(&[5]),
        Decide,
        Sense(&[12, 9]),
        Clear,
        Decide,
        Clear,
    ];
    let text = "open 1 2 10\nrefused 12\nclear 0\nrefused 2\nrefused 12\nsense 1\nclear 1\n\
        refused 12\nclear 0\nend\n";
    assert_eq!(rt; told(heap, &records)?.as_str(), text);
    Ok(())
}

#[test]
fn z_decides(rt: HostRuntime) -> Result<(), Fail> {
    // residues 2 3 1 and -1 -4 -2 at the point 1 -1 3
    let records = [
        Open(1, 3, 10),
        Sense(&[12, -7, 31]),
        Sense(&[9, -14, 28]),
        Decide,
    ];
    let text = "open 1 3 10\nsense 1\nsense 2\npoint 1 -1 3 total 35\nend\n";
    assert_eq!(rt; told(rt.alloc(), &records)?.as_str(), text);
    Ok(())
}

#[test]
fn d_decides(rt: HostRuntime) -> Result<(), Fail> {
    // the nearest point 1 -1 3 has an odd sum; the last cell is worst: residues 2 3 11 and -1 -4 6 at 1 -1 2
    let records = [
        Open(2, 3, 10),
        Sense(&[12, -7, 31]),
        Sense(&[9, -14, 26]),
        Decide,
    ];
    let text = "open 2 3 10\nsense 1\nsense 2\npoint 1 -1 2 total 187\nend\n";
    assert_eq!(rt; told(rt.alloc(), &records)?.as_str(), text);
    Ok(())
}

#[test]
fn e8_by_glue_decides(rt: HostRuntime) -> Result<(), Fail> {
    // a point of odd numbers, with the sum 4: residues 1 1 2 -2 0 3 1 -1 and -1 -2 -1 1 2 -2 -1 0
    let records = [
        Open(3, 8, 10),
        Sense(&[11, -9, 32, 8, 10, 13, -29, 9]),
        Sense(&[9, -12, 29, 11, 12, 8, -31, 10]),
        Decide,
    ];
    let text = "open 3 8 10\nsense 1\nsense 2\npoint 1 -1 3 1 1 1 -3 1 total 37\nend\n";
    assert_eq!(rt; told(rt.alloc(), &records)?.as_str(), text);
    Ok(())
}

#[test]
fn e8_by_words_decides(rt: HostRuntime) -> Result<(), Fail> {
    // each second number is odd: residues 1 -2 1 2 -3 -1 2 -2 and -2 3 -2 -1 1 3 -1 1
    let records = [
        Open(4, 8, 20),
        Sense(&[1, 18, 41, 22, -3, -21, 2, 58]),
        Sense(&[-2, 23, 38, 19, 1, -17, -1, 61]),
        Decide,
    ];
    let text = "open 4 8 20\nsense 1\nsense 2\npoint 0 1 2 1 0 -1 0 3 total 58\nend\n";
    assert_eq!(rt; told(rt.alloc(), &records)?.as_str(), text);
    Ok(())
}

#[test]
fn both_forms_of_e8_decide_a_point_that_both_have(rt: HostRuntime) -> Result<(), Fail> {
    // even numbers, with the sum 4: residues 1 2 2 -1 1 -3 0 2 and -1 -1 -1 2 -2 1 3 -1
    let first = [21, -18, 2, 39, 1, -3, 0, 2];
    let second = [19, -21, -1, 42, -2, 1, 3, -1];
    let records = [
        Open(3, 8, 10),
        Sense(&first),
        Sense(&second),
        Decide,
        Open(4, 8, 10),
        Sense(&first),
        Sense(&second),
        Decide,
    ];
    let text = "open 3 8 10\nsense 1\nsense 2\npoint 2 -2 0 4 0 0 0 0 total 46\n\
        open 4 8 10\nsense 1\nsense 2\npoint 2 -2 0 4 0 0 0 0 total 46\nend\n";
    assert_eq!(rt; told(rt.alloc(), &records)?.as_str(), text);
    Ok(())
}

#[test]
fn readings_are_signed_and_steps_are_not(rt: HostRuntime) -> Result<(), Fail> {
    let heap = rt.alloc();
    // two steps of 16384 are 32768, one above the largest reading
    let bytes = [
        0xA5, 0x01, 2, 2, 0, 0, 0x40, 0, 0xA5, 0x02, 2, 0x7F, 0xFF, 0x80, 0, 0xA5, 0x04,
    ];
    let text = "open 2 2 16384\nsense 1\npoint 2 -2 total 1\nend\n";
    assert_eq!(rt; transcript(heap, &bytes)?.as_str(), text);
    // -1 and -256, and then 255 and 1
    let bytes = [
        0xA5, 0x01, 1, 2, 0, 0, 0, 1, 0xA5, 0x02, 2, 0xFF, 0xFF, 0xFF, 0, 0xA5, 0x04, 0xA5, 0x03,
        0xA5, 0x02, 2, 0, 0xFF, 0, 1, 0xA5, 0x04,
    ];
    let text = "open 1 2 1\nsense 1\npoint -1 -256 total 0\nclear 1\nsense 1\npoint 255 1 total 0\n\
        end\n";
    assert_eq!(rt; transcript(heap, &bytes)?.as_str(), text);
    // steps of 2^24 and more, by their first byte alone
    for high in [1, 0x7F, 0x80, 0xFF] {
        let bytes = [0xA5, 0x01, 1, 2, high, 0, 0, 0];
        assert_eq!(rt; transcript(heap, &bytes)?.as_str(), "refused 10\nend\n");
    }
    Ok(())
}

#[test]
fn a_refused_open_keeps_the_block_with_its_senses(rt: HostRuntime) -> Result<(), Fail> {
    let heap = rt.alloc();
    let opens = [
        (0, 2, 10, 14),
        (3, 2, 10, 2),
        (4, 9, 10, 2),
        (1, 33, 10, 1),
        (2, 0, 10, 1),
        (2, 2, 0, 4),
        (2, 2, 16385, 10),
        (3, 8, 8193, 10),
    ];
    for (kind, cells, step, number) in opens {
        let records = [
            Open(2, 2, 10),
            Sense(&[15, 4]),
            Open(kind, cells, step),
            Sense(&[5, 6]),
            Open(kind, cells, step),
            Decide,
            Clear,
        ];
        let text = format!(in heap;
            "open 2 2 10\nsense 1\nrefused {number}\nsense 2\nrefused {number}\n\
            point 1 1 total 102\nclear 2\nend\n"
        )?;
        assert_eq!(rt; told(heap, &records)?, text, "{kind} {cells} {step}");
    }
    Ok(())
}

#[test]
fn a_granted_open_drops_the_block_before(rt: HostRuntime) -> Result<(), Fail> {
    let heap = rt.alloc();
    let records = [
        Open(2, 2, 10),
        Sense(&[15, 4]),
        // alike
        Open(2, 2, 10),
        Decide,
        Clear,
        Sense(&[15, 4]),
        // another kind, step and width
        Open(1, 3, 100),
        Decide,
        Sense(&[15, 4]),
        Sense(&[90, -210, 40]),
        // residues -10 -10 40
        Decide,
        Open(3, 8, 10),
        Clear,
        Sense(&[90, -210, 40]),
        Sense(&[0; 8]),
        Decide,
        Open(1, 1, 10),
        Decide,
    ];
    let text = "open 2 2 10\nsense 1\nopen 2 2 10\nrefused 12\nclear 0\nsense 1\n\
        open 1 3 100\nrefused 12\nrefused 2\nsense 1\npoint 1 -2 0 total 1800\n\
        open 3 8 10\nclear 0\nrefused 2\nsense 1\npoint 0 0 0 0 0 0 0 0 total 0\n\
        open 1 1 10\nrefused 12\nend\n";
    assert_eq!(rt; told(heap, &records)?.as_str(), text);
    Ok(())
}

#[test]
fn a_stream_stops_where_no_record_begins(rt: HostRuntime) -> Result<(), Fail> {
    let heap = rt.alloc();
    let strays: [&[u8]; 9] = [
        &[0xA5],
        &[0xA5, 0x00],
        &[0xA5, 0x05],
        &[0xA5, 0xA5, 0x03],
        &[0x00],
        &[0x0A],
        &[0x5A, 0x03],
        &[0x03, 0xA5],
        // no record is looked for behind it
        &[0x00, 0xA5, 0x03, 0xA5, 0x04],
    ];
    for stray in strays {
        assert_eq!(rt; transcript(heap, stray)?.as_str(), "stop 0\n", "{stray:?}");
        let mut bytes = WORKED.to_vec(heap)?;
        bytes.extend_from_slice(stray)?;
        let text = "open 2 2 10\nrefused 12\nsense 1\nsense 2\npoint 1 1 total 102\nclear 2\n\
            stop 28\n";
        assert_eq!(rt; transcript(heap, &bytes)?.as_str(), text, "{stray:?}");
    }
    Ok(())
}

#[test]
fn a_stream_stops_where_its_last_record_is_cut_short(rt: HostRuntime) -> Result<(), Fail> {
    let heap = rt.alloc();
    let sense = [5; 255];
    let records = [
        Open(2, 2, 10),
        Open(0, 0, 0),
        Sense(&[15, 4]),
        Sense(&[5]),
        Sense(&sense),
        Clear,
        Decide,
    ];
    for record in records {
        let bytes = stream(heap, &[record])?;
        let whole = bytes.len();
        for count in 1..whole {
            let mut cut = stream(heap, &[Open(2, 2, 10)])?;
            cut.extend_from_slice(bytes.get(..count).unwrap_or_default())?;
            assert_eq!(rt; transcript(heap, &cut)?.as_str(), "open 2 2 10\nstop 8\n");
        }
    }
    // a sense of no cells is whole
    let bytes = [0xA5, 0x01, 2, 2, 0, 0, 0, 10, 0xA5, 0x02, 0];
    assert_eq!(rt;
        transcript(heap, &bytes)?.as_str(),
        "open 2 2 10\nrefused 2\nend\n"
    );
    Ok(())
}

#[test]
fn a_stream_of_the_most_bytes_is_answered(rt: HostRuntime) -> Result<(), Fail> {
    let heap = rt.alloc();
    // 8 bytes, 64 times 67 and 30620 times 2; the residue 2 of 64 times 32 readings is worth 8192
    let mut bytes = stream(heap, &[Open(2, 32, 10)])?;
    let mut text = String::from_str(heap, "open 2 32 10\n")?;
    for count in 1..65 {
        bytes.extend_from_slice(&stream(heap, &[Sense(&[12; 32])])?)?;
        text.push_str(&format!(in heap; "sense {count}\n")?)?;
    }
    for _ in 0..30_620 {
        bytes.extend_from_slice(&stream(heap, &[Decide])?)?;
        text.push_str("point")?;
        for _ in 0..32 {
            text.push_str(" 1")?;
        }
        text.push_str(" total 8192\n")?;
    }
    text.push_str("end\n")?;
    assert_eq!(rt; bytes.len(), MOST_BYTES);
    assert!(rt; transcript(heap, &bytes)? == text);
    Ok(())
}
