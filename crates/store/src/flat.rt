// The flat store: one number for each slot, in a table that the caller lends. Its slots are the
// first 1,024 numbers of the table, or all if there are fewer; what is behind them is never touched.
ghost use Rattle.std.specs.Prelude.{◌≡◌, ◌<◌, ◌≤◌, length, drop, MatchResult};
ghost use Rattle.store.specs.FlatMeaning.{flat_meaning, flat_laws, cells, behind};
ghost use Rattle.store.specs.Meaning.{Live, Fresh, Adds, Settles};
ghost use Rattle.store.specs.Refusals.{told};

use crate::refusal::Refusal;
use crate::store::{CEILING, Store};
use decoder::work::{AREA, admitted};
use rounds::span::Span;
use std::marker::Model;

// A flat store has at most so many slots.
const SLOTS: usize = 1024;

#[derive(Drop)]
pub struct Flat<'a> {
    table: &'a mut [u64],
    weight: u64,
    rounds: u16,
}

// Clauses see what the table holds, and not the loan of it.
impl<'a> Model for Flat<'a> {
    ghost use Rattle.store.specs.FlatView.{FlatView, FlatSound};

    ghost Value = { FlatView };

    ghost view = { λ f. record { table = f.table.now; weight = f.weight; rounds = f.rounds } };

    ghost invariant = { λ f. FlatSound f.table.now f.weight };
}

impl<'a> Flat<'a> {
    // A store over the table, whose slots are cleared.
    pub fn new(table: &'a mut [u64]) -> Flat<'a>
        ensures fresh { Fresh flat_meaning result }
        ensures rounds { result.rounds ≡ 0 }
        ensures table { length result.table ≡ length table.old }
        ensures behind { behind result ≡ drop 1024 table.old }
    {
        let many = table.len().min(SLOTS);
        table[..many].fill(0);
        Flat {
            table,
            weight: 0,
            rounds: 0,
        }
    }

    // Where the table has the number of a slot. Each store tests slots against tables of its own.
    fn place(&self, slot: u16) -> Result<usize, Refusal>
        ensures { MatchResult result (λ place. (place ≡ slot) × (slot < length (cells self.now)) × (place < length self.now.table)) (λ why. (why ≡ Refusal.NoSlot) × (length (cells self.now) ≤ slot)) }
    {
        if slot < self.slots() {
            Ok(usize::from(slot))
        } else {
            Err(Refusal::NoSlot)
        }
    }
}

impl<'a> Store for Flat<'a> {
    ghost meaning = { flat_meaning };

    ghost laws = { flat_laws };

    fn slots(&self) -> u16 {
        self.table.len().min(SLOTS) as u16
    }

    fn weight(&self) -> u64 {
        self.weight
    }

    fn rounds(&self) -> u16 {
        self.rounds
    }

    fn span(&self, slot: u16) -> Result<Span, Refusal> {
        let place = self.place(slot)?;
        Ok(Span::closed(self.table[place]))
    }

    fn add(&mut self, slot: u16, n: u32) -> Result<u64, Refusal>
        ensures adds { Live flat_meaning self.old → Adds flat_meaning self.old self.new slot n (told result) }
        ensures behind { behind self.new ≡ behind self.old }
    {
        let place = self.place(slot)?;
        let n = u64::from(n);
        let weight = self.weight + n;
        if weight > CEILING {
            return Err(Refusal::Ceiling);
        }
        self.table[place] += n;
        self.weight = weight;
        self.rounds = 0;
        Ok(weight)
    }

    fn settle(&mut self, count: u16, work: &mut [u64]) -> Result<u16, Refusal>
        ensures settles { Live flat_meaning self.old → Settles flat_meaning self.old self.new count work.old work.new (told result) }
        ensures behind { behind self.new ≡ behind self.old }
    {
        admitted(count, work.len())?;
        work[..AREA].fill(0);
        self.rounds = count;
        Ok(count)
    }
}
