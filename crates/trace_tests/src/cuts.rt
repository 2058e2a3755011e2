// A trace with a record of each kind, cut at every place; ends that are not the last byte; and the
// shortest and the longest.
use std::alloc::Global;
use std::test::Fail;
use trace::fault::Fault;
use trace::survey::{Counts, Survey};

// remark at 0, enrol at 17, amount at 32, amount at 45, end at 58
const TRACE: [u8; 59] = [
    3, 4, 4, 1, 2, 3, 4, 0, 255, 11, 12, 13, 14, 15, 16, 1, 2, // the text looks like kinds
    1, 0, 0, 0, 0, 0, 0, 1, 2, 0, 3, 1, 0, 4, 255, // flow 258
    2, 0, 0, 0, 0, 0, 0, 1, 2, 0, 0, 0, 11, // 11 units
    2, 0, 0, 0, 0, 0, 0, 1, 2, 1, 0, 2, 3, // 16,777,731 units
    4,
];

#[test]
fn every_cut(rt: HostRuntime) {
    let none = Counts::default();
    let remark = Counts { remarks: 1, ..none };
    let enrol = Counts {
        enrols: 1,
        ..remark
    };
    let amount = Counts {
        amounts: 1,
        units: 11,
        ..enrol
    };
    let both = Counts {
        amounts: 2,
        units: 16777742,
        ..enrol
    };
    // the number is the cut
    for n in 0..59 {
        let (start, counts) = match n {
            0..=16 => (0, none),
            17..=31 => (17, remark),
            32..=44 => (32, enrol),
            45..=57 => (45, amount),
            _ => (58, both),
        };
        let fault = if n == start {
            Fault::NoEnd { place: n }
        } else {
            Fault::CutShort { place: start }
        };
        let expected = Survey {
            counts,
            outcome: Err(fault),
        };
        assert_eq!(rt; Survey::of(&TRACE[..n]), expected, "cut");
    }
    let whole = Survey {
        counts: both,
        outcome: Ok(58),
    };
    assert_eq!(rt; Survey::of(&TRACE), whole);
}

#[test]
fn every_kind_byte(rt: HostRuntime) {
    // every byte
    for kind in 0..=255u8 {
        let expected = match kind {
            4 => Ok(0),
            1..=3 => Err(Fault::CutShort { place: 0 }),
            _ => Err(Fault::UnknownKind { place: 0 }),
        };
        assert_eq!(rt; Survey::of(&[kind]).outcome, expected);
        // behind the end record every byte is one too many
        assert_eq!(rt;
            Survey::of(&[4, kind]).outcome,
            Err(Fault::AfterEnd { place: 0 })
        );
    }
}

#[test]
fn empty(rt: HostRuntime) {
    assert_eq!(rt; Survey::of(&[]).outcome, Err(Fault::NoEnd { place: 0 }));
}

// 20,000 records of the greatest amount.
#[test]
fn long(rt: HostRuntime) -> Result<(), Fail> {
    let mut trace = Vec::new(rt.alloc());
    for _ in 0..20000 {
        trace.extend_from_slice(&[2, 0, 0, 0, 0, 0, 0, 0, 9, 255, 255, 255, 255])?;
    }
    trace.push(4)?;
    let expected = Survey {
        counts: Counts {
            amounts: 20000,
            units: 85899345900000,
            ..Counts::default()
        },
        outcome: Ok(260000),
    };
    assert_eq!(rt; Survey::of(&trace), expected);
    Ok(())
}
