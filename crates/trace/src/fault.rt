// What can be wrong with a trace. Each fault names the byte that it concerns, by its place in the
// trace, counted from 0.
ghost use Rattle.std.specs.Prelude.{◌≡◌};
ghost use Rattle.trace.specs.Answers.{place_of, number};

use std::error::Error;
use std::fmt;

#[derive(Clone, Copy, PartialEq, Eq, Debug)]
pub enum Fault {
    // a kind byte that is not 1 to 4
    UnknownKind { place: usize },
    // a record of which the trace does not hold the whole body; the place is its kind byte
    CutShort { place: usize },
    // bytes behind the end record; the place is the end record's own
    AfterEnd { place: usize },
    // the trace stops where a kind byte is due; the place is the one past the last byte
    NoEnd { place: usize },
}

impl Fault {
    // The number under which people know the fault.
    pub fn number(&self) -> u8
        ensures { result ≡ number self.now }
    {
        // by a match, since cases that carry values have no discriminants
        match self {
            Fault::UnknownKind { .. } => 11,
            Fault::CutShort { .. } => 12,
            Fault::AfterEnd { .. } => 13,
            Fault::NoEnd { .. } => 14,
        }
    }

    pub fn place(&self) -> usize
        ensures { result ≡ place_of self.now }
    {
        match self {
            Fault::UnknownKind { place }
            | Fault::CutShort { place }
            | Fault::AfterEnd { place }
            | Fault::NoEnd { place } => *place,
        }
    }
}

// What the fault means, in words.
impl fmt::Display for Fault {
    fn fmt<W: fmt::Write>(&self, f: &mut fmt::Formatter<W>) -> fmt::Result {
        f.write_str(match self {
            Fault::UnknownKind { .. } => "a byte that is no kind of record",
            Fault::CutShort { .. } => "a record whose body is cut short",
            Fault::AfterEnd { .. } => "an end record with bytes behind it",
            Fault::NoEnd { .. } => "a trace that stops without an end record",
        })
    }
}

impl Error for Fault {}
