// The kind of a record: the byte that stands first in it, which fixes how long its body is.
ghost use Rattle.std.specs.Prelude.{◌≡◌};
ghost use Rattle.trace.specs.Kinds.{code, Decodes};
ghost use Rattle.trace.specs.Layout.{body_length};

use std::error::Error;
use std::fmt;

#[derive(Clone, Copy, PartialEq, Eq, Debug)]
pub enum Kind {
    Enrol = 1,
    Amount = 2,
    Remark = 3,
    End = 4,
}

// A byte that is no kind.
#[derive(Clone, Copy, PartialEq, Eq, Debug)]
pub struct UnknownKind(pub u8);

impl Kind {
    // How many bytes follow the kind byte.
    pub fn body_len(self) -> usize
        ensures { result ≡ body_length (code self) }
    {
        match self {
            Kind::Enrol => 14,
            Kind::Amount => 12,
            Kind::Remark => 16,
            Kind::End => 0,
        }
    }
}

impl TryFrom<u8> for Kind {
    type Error = UnknownKind;

    ghost try_from_gives = { Decodes };

    fn try_from(byte: u8) -> Result<Self, UnknownKind> {
        match byte {
            1 => Ok(Kind::Enrol),
            2 => Ok(Kind::Amount),
            3 => Ok(Kind::Remark),
            4 => Ok(Kind::End),
            _ => Err(UnknownKind(byte)),
        }
    }
}

impl fmt::Display for UnknownKind {
    fn fmt<W: fmt::Write>(&self, f: &mut fmt::Formatter<W>) -> fmt::Result {
        write!(f, "{} is no kind of record", self.0)
    }
}

impl Error for UnknownKind {}
