// Why a row or a depth was not made.
ghost use Rattle.std.specs.Prelude.{◌≡◌};
ghost use Rattle.wiring.specs.Wiring.{number};

use std::error::Error;
use std::fmt;

#[derive(Clone, Copy, PartialEq, Eq, Debug)]
pub enum Refusal {
    // the slot numbers are not three in strictly rising order
    Unordered = 5,
    // the number of bits is not 2 to 16
    Bits = 10,
}

impl Refusal {
    // The number under which people know the refusal.
    pub fn number(&self) -> u8
        ensures { result ≡ number self.now }
    {
        *self as u8
    }
}

impl fmt::Display for Refusal {
    fn fmt<W: fmt::Write>(&self, f: &mut fmt::Formatter<W>) -> fmt::Result {
        f.write_str(match self {
            Refusal::Unordered => "slots that are not three in strictly rising order",
            Refusal::Bits => "a depth that is not 2 to 16 bits",
        })
    }
}

impl Error for Refusal {}
