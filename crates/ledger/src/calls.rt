// Calls on a braid as a list holds them, and what they answer.
ghost use Rattle.std.specs.Prelude.{◌≡◌};
ghost use Rattle.ledger.specs.Calls.{number};

use braid::refusal::Refusal as BraidRefusal;
use std::error::Error;
use std::fmt;
use store::refusal::Refusal as StoreRefusal;
use wiring::refusal::Refusal as RowRefusal;

#[derive(Clone, Copy, PartialEq, Eq, Debug)]
pub enum Call<'a> {
    // one slot more, on a row of these slots of the store below
    Wire { slots: &'a [u16] },
    Add { slot: u16, units: u32 },
    // at so many rounds, in the first `room` numbers of the lent work area
    Settle { rounds: u16, room: usize },
}

// What an accepted call did.
#[derive(Clone, Copy, PartialEq, Eq, Debug)]
pub enum Done {
    // the new slot's number
    Wired(u16),
    // the new weight
    Added(u64),
    // the rounds
    Settled(u16),
}

// Why a call was declined, and by whom.
#[derive(Clone, Copy, PartialEq, Eq, Debug)]
pub enum Denial {
    Row(RowRefusal),
    Braid(BraidRefusal),
    Store(StoreRefusal),
}

pub type Answer = Result<Done, Denial>;

impl Denial {
    // The number under which people know the refusal, whoever it comes from.
    pub fn number(&self) -> u8
        ensures { result ≡ number self.now }
    {
        match self {
            Denial::Row(why) => why.number(),
            Denial::Braid(why) => why.number(),
            Denial::Store(why) => why.number(),
        }
    }
}

impl fmt::Display for Denial {
    fn fmt<W: fmt::Write>(&self, f: &mut fmt::Formatter<W>) -> fmt::Result {
        match self {
            Denial::Row(why) => write!(f, "{why}"),
            Denial::Braid(why) => write!(f, "{why}"),
            Denial::Store(why) => write!(f, "{why}"),
        }
    }
}

impl Error for Denial {}

impl From<RowRefusal> for Denial {
    ghost use Rattle.ledger.specs.declared.calls.Denial.TheVariants.{Row};

    ghost from_gives = { λ why denial. denial ≡ Row why };

    fn from(why: RowRefusal) -> Self {
        Self::Row(why)
    }
}

impl From<BraidRefusal> for Denial {
    ghost use Rattle.ledger.specs.declared.calls.Denial.TheVariants.{Braid};

    ghost from_gives = { λ why denial. denial ≡ Braid why };

    fn from(why: BraidRefusal) -> Self {
        Self::Braid(why)
    }
}

impl From<StoreRefusal> for Denial {
    ghost use Rattle.ledger.specs.declared.calls.Denial.TheVariants.{Store};

    ghost from_gives = { λ why denial. denial ≡ Store why };

    fn from(why: StoreRefusal) -> Self {
        Self::Store(why)
    }
}
