// A row: the slots that one flow, or one slot of a braid, adds to.
// It is three slot numbers in strictly rising order, and no row of another kind exists.
ghost use Rattle.std.specs.Prelude.{◌≡◌, true, [], ◌∷◌};
ghost use Rattle.wiring.specs.Rising.{is_row};
ghost use Rattle.wiring.specs.Wiring.{told, row_from};

use crate::refusal::Refusal;
use std::marker::Model;

#[derive(Clone, Copy, PartialEq, Eq, Debug)]
pub struct Row {
    slots: [u16; 3],
}

// Clauses see the list of its slots.
impl Model for Row {
    ghost use Rattle.std.specs.Prelude.{◌≡◌, ℕ, List, true};
    ghost use Rattle.wiring.specs.Rising.{is_row};

    ghost Value = { List ℕ };

    ghost view = { λ row. row.slots };

    ghost invariant = { λ row. is_row row.slots ≡ true };

    ghost inverse = { λ slots. record { slots = slots } };
}

impl Row {
    pub fn new(a: u16, b: u16, c: u16) -> Result<Row, Refusal>
        ensures { told result ≡ row_from (a ∷ (b ∷ (c ∷ []))) }
    {
        if a < b && b < c {
            Ok(Row { slots: [a, b, c] })
        } else {
            Err(Refusal::Unordered)
        }
    }

    // The slots, rising.
    pub fn slots(&self) -> &[u16]
        ensures value { result.now ≡ self.now }
        ensures rising { is_row result.now ≡ true }
    {
        &self.slots
    }
}

// The first three slots: what a table holds in a place that no row was written to. By hand, since zeros are no row.
impl Default for Row {
    ghost is_default = { λ row. row ≡ 0 ∷ (1 ∷ (2 ∷ [])) };

    fn default() -> Row {
        Row { slots: [0, 1, 2] }
    }
}

// A row from a list of slots; one that is not three numbers long makes none.
impl<'a> TryFrom<&'a [u16]> for Row {
    type Error = Refusal;

    ghost try_from_gives = { λ slots r. told r ≡ row_from slots.now };

    fn try_from(slots: &'a [u16]) -> Result<Row, Refusal> {
        match slots {
            [a, b, c] => Row::new(*a, *b, *c),
            _ => Err(Refusal::Unordered),
        }
    }
}

// The slots as a table keeps them.
impl From<Row> for [u16; 3] {
    ghost from_gives = { λ row slots. slots ≡ row };

    fn from(row: Row) -> [u16; 3] {
        row.slots
    }
}
