// Why a store declined a call.
ghost use Rattle.std.specs.Prelude.{◌≡◌};
ghost use Rattle.decoder.specs.Decoding.{number as decoder_number};
ghost use Rattle.store.specs.Refusals.{number};

use decoder::refusal::Refusal as DecoderRefusal;
use decoder::unfit::Unfit;
use std::error::Error;
use std::fmt;

#[derive(Clone, Copy, PartialEq, Eq, Debug)]
pub enum Refusal {
    // there is no such slot
    NoSlot = 1,
    // the weight would pass the ceiling
    Ceiling = 2,
    // more rounds were asked for than 2,048
    Rounds = 3,
    // the work area has fewer than 7,168 numbers
    Work = 4,
}

impl Refusal {
    // The number under which people know the refusal.
    pub fn number(&self) -> u8
        ensures { result ≡ number self.now }
    {
        *self as u8
    }
}

impl fmt::Display for Refusal {
    fn fmt<W: fmt::Write>(&self, f: &mut fmt::Formatter<W>) -> fmt::Result {
        f.write_str(match self {
            Refusal::NoSlot => "a slot that is not there",
            Refusal::Ceiling => "a weight above the ceiling of 2^40",
            Refusal::Rounds => "more than 2,048 rounds",
            Refusal::Work => "a work area of fewer than 7,168 numbers",
        })
    }
}

impl Error for Refusal {}

// What the decoder refuses, a store refuses under the same number.
impl From<DecoderRefusal> for Refusal {
    ghost from_gives = { λ why r. number r ≡ decoder_number why };

    fn from(why: DecoderRefusal) -> Refusal {
        match why {
            DecoderRefusal::Rounds => Refusal::Rounds,
            DecoderRefusal::Area => Refusal::Work,
        }
    }
}

// What the decoder does not take as a claimant or a span is refused as a slot that is not there.
impl From<Unfit> for Refusal {
    ghost from_gives = { λ why r. number r ≡ 1 };

    fn from(_: Unfit) -> Refusal {
        Refusal::NoSlot
    }
}
