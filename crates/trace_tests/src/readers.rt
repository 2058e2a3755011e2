// What a reader hands out, record by record, and that its last answer comes again.
use trace::fault::Fault;
use trace::kind::{Kind, UnknownKind};
use trace::number::number;
use trace::reader::Reader;
use trace::record::Record;

#[test]
fn parts_of_the_trace(rt: HostRuntime) {
    let trace = [
        1, 0, 0, 0, 0, 0, 0, 0, 7, 0, 1, 0, 2, 1, 0, 2, 0, 0, 0, 0, 0, 0, 0, 7, 0, 0, 1, 0, 4,
    ];
    let mut reader = Reader::new(&trace);
    assert_eq!(rt;
        reader.next(),
        Ok(Record::Enrol {
            place: 0,
            id: &[0, 0, 0, 0, 0, 0, 0, 7],
            slots: &[0, 1, 0, 2, 1, 0],
        })
    );
    assert_eq!(rt;
        reader.next(),
        Ok(Record::Amount {
            place: 15,
            id: &[0, 0, 0, 0, 0, 0, 0, 7],
            units: &[0, 0, 1, 0],
        })
    );
    for _ in 0..3 {
        assert_eq!(rt; reader.next(), Ok(Record::End { place: 28 }));
    }
}

#[test]
fn faults_come_again(rt: HostRuntime) {
    let trace = [
        3, 1, 2, 3, 4, 5, 6, 7, 8, 9, 10, 11, 12, 13, 14, 15, 16, 9, 4,
    ];
    let mut reader = Reader::new(&trace);
    assert_eq!(rt;
        reader.next(),
        Ok(Record::Remark {
            place: 0,
            text: &[1, 2, 3, 4, 5, 6, 7, 8, 9, 10, 11, 12, 13, 14, 15, 16],
        })
    );
    for _ in 0..3 {
        assert_eq!(rt; reader.next(), Err(Fault::UnknownKind { place: 17 }));
    }
}

#[test]
fn kinds(rt: HostRuntime) {
    for kind in [Kind::Enrol, Kind::Amount, Kind::Remark, Kind::End] {
        assert_eq!(rt; Kind::try_from(kind as u8), Ok(kind));
    }
    assert_eq!(rt; Kind::try_from(0), Err(UnknownKind(0)));
    assert_eq!(rt; Kind::try_from(5), Err(UnknownKind(5)));
    assert_eq!(rt; Kind::Amount.body_len(), 12);
}

#[test]
fn numbers(rt: HostRuntime) {
    assert_eq!(rt; number(&[0, 0, 0, 0, 0, 0, 0, 7]), Some(7));
    assert_eq!(rt; number(&[0, 0, 1, 0]), Some(256));
    assert_eq!(rt; number(&[]), Some(0));
    assert_eq!(rt; number(&[255]), Some(255));
    assert_eq!(rt; number(&[1, 0]), Some(256));
    assert_eq!(rt;
        number(&[255, 255, 255, 255, 255, 255, 255, 255]),
        Some(18446744073709551615)
    );
    assert_eq!(rt; number(&[0, 0, 0, 0, 0, 0, 0, 0, 1]), None);
}
