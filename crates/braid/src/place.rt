// Where a slot stands in the tables of a layer: a number below 1,024, so that no table is left.
ghost use Rattle.std.specs.Prelude.{◌≡◌, ◌<◌, ◌≤◌, MatchOption};

use std::marker::Model;

#[derive(Clone, Copy)]
pub(crate) struct Place {
    index: usize,
}

// Clauses see the number.
impl Model for Place {
    ghost use Rattle.std.specs.Prelude.{ℕ, ◌<◌};

    ghost Value = { ℕ };

    ghost view = { λ place. place.index };

    ghost invariant = { λ place. place.index < 1024 };

    ghost inverse = { λ index. record { index = index } };
}

// A layer has room for so many slots.
pub(crate) const SLOTS: usize = 1024;

impl Place {
    pub(crate) fn of(slot: u16) -> Option<Place>
        ensures { MatchOption result (1024 ≤ slot) (λ place. (place ≡ slot) × (place < 1024)) }
    {
        let index = usize::from(slot);
        if index < SLOTS {
            Some(Place { index })
        } else {
            None
        }
    }

    pub(crate) fn index(self) -> usize
        ensures value { result ≡ self }
        ensures inside { result < 1024 }
    {
        self.index
    }
}
