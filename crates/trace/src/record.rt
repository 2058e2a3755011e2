// A record of a trace, as parts of the trace itself. `place` is where its kind byte stands.
#[derive(Clone, Copy, PartialEq, Eq, Debug)]
pub enum Record<'a> {
    // a new flow: its identifier, 8 bytes, and the slots of its row, three numbers of 2 bytes
    Enrol {
        place: usize,
        id: &'a [u8],
        slots: &'a [u8],
    },
    // units for a flow: its identifier, 8 bytes, and how many, 4 bytes
    Amount {
        place: usize,
        id: &'a [u8],
        units: &'a [u8],
    },
    // 16 bytes for people, which the accounts pass over
    Remark {
        place: usize,
        text: &'a [u8],
    },
    // the last record, with no body
    End {
        place: usize,
    },
}
