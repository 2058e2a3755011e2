// The rows of a layer's slots, in their order: at most 1,024, in a table of the layer's own. Each place past the last
// row has the first three slots, so that the rows alone tell the whole table, and a layer can be copied.
ghost use Rattle.std.specs.Prelude.{◌≡◌, ◌<◌, ◌≤◌, [], ◌∷◌, ◌++◌, length};

use crate::place::SLOTS;
use std::marker::Model;
use wiring::row::Row;

#[derive(Clone, Copy)]
pub(crate) struct Rows {
    table: [Row; SLOTS],
    count: u16,
}

// Clauses see the list of the rows.
impl Model for Rows {
    ghost use Rattle.std.specs.Prelude.{ℕ, List, length, take};
    ghost use Rattle.braid.specs.Tables.{Tabled, table_of, same_table, same_count};

    ghost Value = { List (List ℕ) };

    ghost view = { λ rows. take rows.count rows.table };

    ghost invariant = { λ rows. Tabled rows.table rows.count };

    ghost inverse = { λ rows. record { table = table_of rows; count = length rows } };

    ghost inverse_ok = { λ rows tabled i. record {
      table = same_table rows.table rows.count tabled i;
      count = same_count rows.table rows.count tabled i;
    } };
}

impl Rows {
    pub(crate) fn new() -> Rows
        ensures { result ≡ [] }
    {
        Rows {
            table: [Row::default(); SLOTS],
            count: 0,
        }
    }

    pub(crate) fn len(&self) -> u16
        ensures value { result ≡ length self.now }
        ensures fits { result ≤ 1024 }
    {
        self.count
    }

    pub(crate) fn as_slice(&self) -> &[Row]
        ensures value { result.now ≡ self.now }
        ensures fits { length result.now ≤ 1024 }
    {
        &self.table[..usize::from(self.count)]
    }

    // One row more, where there is room for it.
    pub(crate) fn push(&mut self, row: Row)
        requires { length self.old < 1024 }
        ensures { self.new ≡ self.old ++ row ∷ [] }
    {
        let i = usize::from(self.count);
        self.table[i] = row;
        self.count += 1;
    }
}
