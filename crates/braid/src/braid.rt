// A braid over any store, which it keeps.
ghost use Rattle.std.specs.Prelude.{◌≡◌};
ghost use Rattle.store.specs.Meaning.{Live, Fresh, Spans, Adds, Settles};
ghost use Rattle.store.specs.Refusals.{told};
ghost use Rattle.braid.specs.BraidMeaning.{BraidSound, braid_meaning};
ghost use Rattle.braid.specs.BraidLaws.{braid_laws};
ghost use Rattle.braid.specs.Layers.{blank, SameWiring};
ghost use Rattle.braid.specs.Wires.{Wires, told_wire};

use crate::inputs::claims_of;
use crate::layer::Layer;
use crate::place::SLOTS;
use crate::refusal::Refusal;
use decoder::decode;
use rounds::span::Span;
use store::inputs::spans_of;
use store::refusal::Refusal as StoreRefusal;
use store::spread::{add_to_row, within};
use store::store::{CEILING, Store};
use wiring::depth::Depth;
use wiring::row::Row;

#[derive(Drop)]
pub struct Braid<S: Store> {
    below: S,
    layer: Layer,
}

impl<S: Store> Braid<S> {
    // A braid without slots.
    pub fn new(below: S, depth: Depth) -> Braid<S>
        ensures below { result.below ≡ below }
        ensures layer { result.layer ≡ blank depth }
        ensures sound { S.Store.meaning.sound below → BraidSound S.Store.meaning result }
        ensures fresh { Fresh S.Store.meaning below → Fresh (braid_meaning S.Store.meaning) result }
    {
        Braid {
            below,
            layer: Layer::new(depth),
        }
    }

    // One slot more, on a row of slots of the store below. It answers the slot's number.
    pub fn wire(&mut self, row: Row) -> Result<u16, Refusal>
        ensures { Wires S.Store.meaning self.old self.new row (told_wire result) }
    {
        if self.layer.weight > 0 || self.below.weight() > 0 {
            return Err(Refusal::Weighted);
        }
        if usize::from(self.layer.count()) >= SLOTS {
            return Err(Refusal::Full);
        }
        if !within(row.slots(), self.below.slots()) {
            return Err(Refusal::Store(StoreRefusal::NoSlot));
        }
        Ok(self.layer.wire(row))
    }
}

impl<S: Store> Store for Braid<S> {
    ghost meaning = { braid_meaning S.Store.meaning };

    ghost laws = { braid_laws S.Store.meaning S.Store.laws };

    fn slots(&self) -> u16 {
        self.layer.count()
    }

    fn weight(&self) -> u64 {
        self.layer.weight
    }

    fn rounds(&self) -> u16 {
        self.layer.rounds
    }

    fn span(&self, slot: u16) -> Result<Span, StoreRefusal> {
        let i = self.layer.place(slot)?;
        Ok(self.layer.span(i))
    }

    fn add(&mut self, slot: u16, n: u32) -> Result<u64, StoreRefusal>
        ensures adds { Live (braid_meaning S.Store.meaning) self.old → Adds (braid_meaning S.Store.meaning) self.old self.new slot n (told result) }
        ensures wiring { SameWiring self.old.layer self.new.layer }
        ensures beneath { Live (braid_meaning S.Store.meaning) self.old → S.Store.meaning.slots self.new.below ≡ S.Store.meaning.slots self.old.below }
    {
        let i = self.layer.place(slot)?;
        if self.layer.weight.saturating_add(u64::from(n)) > CEILING {
            return Err(StoreRefusal::Ceiling);
        }
        let carry = self.layer.carry(i, n);
        if carry >= 1 {
            add_to_row(&mut self.below, self.layer.row(i), carry)?;
        }
        self.layer.count_more(i, n);
        Ok(self.layer.weight)
    }

    fn settle(&mut self, count: u16, work: &mut [u64]) -> Result<u16, StoreRefusal>
        ensures settles { Live (braid_meaning S.Store.meaning) self.old → Settles (braid_meaning S.Store.meaning) self.old self.new count work.old work.new (told result) }
        ensures wiring { SameWiring self.old.layer self.new.layer }
        ensures beneath { Live (braid_meaning S.Store.meaning) self.old → S.Store.meaning.slots self.new.below ≡ S.Store.meaning.slots self.old.below }
    {
        self.below.settle(count, work)?;
        let claims = claims_of(&self.layer)?;
        let spans = spans_of(&self.below)?;
        decode(
            &claims,
            &spans,
            count,
            work,
            &mut self.layer.lows,
            &mut self.layer.highs,
        )?;
        self.layer.rounds = count;
        Ok(count)
    }
}
