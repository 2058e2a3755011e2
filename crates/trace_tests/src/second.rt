// A second account of a trace, kept byte by byte with no look ahead: a counter of the bytes that
// are still due to the record at hand.

// What is wrong with a trace, by the number under which people know it.
#[derive(Clone, Copy, PartialEq, Eq, Debug)]
pub enum Flaw {
    NoKind = 11,
    Short = 12,
    Behind = 13,
    Missing = 14,
}

#[derive(Clone, Copy, PartialEq, Eq, Default, Debug)]
pub struct Tally {
    pub enrols: u64,
    pub amounts: u64,
    pub remarks: u64,
    pub units: u128,
}

#[derive(Clone, Copy, PartialEq, Eq, Debug)]
pub struct Sighted {
    pub tally: Tally,
    // the place of the end record, or what is wrong and where
    pub outcome: Result<usize, (Flaw, usize)>,
}

#[derive(Clone, Copy)]
enum Body {
    Enrol,
    Amount,
    Remark,
}

// What is left of a body: so many bytes, of which the last four spell `sum` so far.
#[derive(Clone, Copy)]
struct Part {
    body: Body,
    left: u8,
    sum: u64,
}

// What the next byte is to be.
#[derive(Clone, Copy)]
enum Due {
    Kind,
    Body(Part),
    // none, since the end was seen
    Nothing,
    // none that can mean anything
    Lost(Flaw),
}

#[derive(Clone, Copy)]
struct Watcher {
    tally: Tally,
    due: Due,
    // of the record at hand, or of the next
    place: usize,
}

impl Watcher {
    fn see(&mut self, at: usize, byte: u8) {
        match self.due {
            Due::Kind => self.begin(at, byte),
            Due::Body(part) => self.go_on(at, byte, part),
            Due::Nothing => self.due = Due::Lost(Flaw::Behind),
            Due::Lost(_) => {}
        }
    }

    fn begin(&mut self, at: usize, byte: u8) {
        let part = |body, left| Due::Body(Part { body, left, sum: 0 });
        self.place = at;
        // by the bytes themselves, since no name is shared with the first reader
        self.due = match byte {
            1 => part(Body::Enrol, 14),
            2 => part(Body::Amount, 12),
            3 => part(Body::Remark, 16),
            4 => Due::Nothing,
            _ => Due::Lost(Flaw::NoKind),
        };
    }

    fn go_on(&mut self, at: usize, byte: u8, part: Part) {
        let Part { body, left, sum } = part;
        let left = left.saturating_sub(1);
        let sum = if left < 4 {
            sum.wrapping_mul(256).wrapping_add(u64::from(byte))
        } else {
            sum
        };
        if left > 0 {
            self.due = Due::Body(Part { body, left, sum });
        } else {
            self.close(body, sum);
            self.due = Due::Kind;
            self.place = at.saturating_add(1);
        }
    }

    // A record is whole.
    fn close(&mut self, body: Body, sum: u64) {
        match body {
            Body::Enrol => self.tally.enrols = self.tally.enrols.wrapping_add(1),
            Body::Amount => {
                self.tally.amounts = self.tally.amounts.wrapping_add(1);
                self.tally.units = self.tally.units.wrapping_add(u128::from(sum));
            }
            Body::Remark => self.tally.remarks = self.tally.remarks.wrapping_add(1),
        }
    }

    fn sighted(&self) -> Sighted {
        let outcome = match self.due {
            Due::Kind => Err(Flaw::Missing),
            Due::Body(_) => Err(Flaw::Short),
            Due::Nothing => Ok(self.place),
            Due::Lost(flaw) => Err(flaw),
        };
        Sighted {
            tally: self.tally,
            outcome: outcome.map_err(|flaw| (flaw, self.place)),
        }
    }
}

pub fn watch(trace: &[u8]) -> Sighted {
    let mut watcher = Watcher {
        tally: Tally::default(),
        due: Due::Kind,
        place: 0,
    };
    for (at, byte) in trace.iter().enumerate() {
        watcher.see(at, *byte);
    }
    watcher.sighted()
}
