// Why a braid did not take a row. What a store declines keeps the store's own refusal.
ghost use Rattle.std.specs.Prelude.{◌≡◌};
ghost use Rattle.braid.specs.Wires.{number};

use std::error::Error;
use std::fmt;
use store::refusal::Refusal as StoreRefusal;

#[derive(Clone, Copy, PartialEq, Eq, Debug)]
pub enum Refusal {
    // the braid or the store below has weight
    Weighted,
    // there are 1,024 slots already
    Full,
    // a slot of the row is not one of the store below
    Store(StoreRefusal),
}

impl Refusal {
    // The number under which people know the refusal.
    pub fn number(&self) -> u8
        ensures { result ≡ number self.now }
    {
        // by a match, since a case that carries a value has no discriminant
        match self {
            Refusal::Weighted => 6,
            Refusal::Full => 7,
            Refusal::Store(why) => why.number(),
        }
    }
}

impl fmt::Display for Refusal {
    fn fmt<W: fmt::Write>(&self, f: &mut fmt::Formatter<W>) -> fmt::Result {
        match self {
            Refusal::Weighted => f.write_str("a new slot where there is weight already"),
            Refusal::Full => f.write_str("a new slot where there are 1,024 already"),
            Refusal::Store(why) => write!(f, "{why}"),
        }
    }
}

impl Error for Refusal {}
