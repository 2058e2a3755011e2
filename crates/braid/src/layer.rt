// A layer: the counters of a braid, in tables of its own. Of each slot it keeps the low part, the
// status bit (1 where the counter has run over) and the row; and of the slots that are raised what
// the last settling worked out.
ghost use Rattle.std.specs.Prelude.{◌≡◌, ◌+◌, ◌*◌, ◌^◌, ◌<◌, ◌≤◌, min, MatchResult};
ghost use Rattle.store.specs.declared.refusal.Refusal.TheVariants.{NoSlot};
ghost use Rattle.braid.specs.Layers.{Room, SameWiring, blank, carry, added, wired, known_span};
ghost use Rattle.braid.specs.BraidMeaning.{modulus, row, count};

use crate::place::{Place, SLOTS};
use crate::table::Rows;
use rounds::span::Span;
use store::refusal::Refusal;
use wiring::depth::Depth;
use wiring::row::Row;

// Tables of a braid's own, all zero at first (a bit too is 0 or 1), beside its rows: the decoder is lent two of them whole,
// and a settling must not want memory. Nobody compares or prints a layer.
#[derive(Clone, Copy)]
pub struct Layer {
    pub(crate) parts: [u16; SLOTS],
    pub(crate) bits: [u8; SLOTS],
    pub(crate) lows: [u64; SLOTS],
    pub(crate) highs: [u64; SLOTS],
    pub(crate) rows: Rows,
    pub(crate) weight: u64,
    pub(crate) rounds: u16,
    pub(crate) depth: Depth,
}

impl Layer {
    // A layer without slots.
    pub(crate) fn new(depth: Depth) -> Layer
        ensures value { result ≡ blank depth }
        ensures least { 2 ≤ depth }
        ensures most { depth ≤ 16 }
    {
        // the two bounds are what asking a depth for its bits tells
        let _ = depth.bits();
        Layer {
            parts: [0; SLOTS],
            bits: [0; SLOTS],
            lows: [0; SLOTS],
            highs: [0; SLOTS],
            rows: Rows::new(),
            weight: 0,
            rounds: 0,
            depth,
        }
    }

    // How many slots there are.
    pub(crate) fn count(&self) -> u16
        ensures value { result ≡ count self.now }
        ensures few { result ≤ 1024 }
    {
        self.rows.len()
    }

    // Where a slot stands in the tables. Each store tests slots against tables of its own.
    pub(crate) fn place(&self, slot: u16) -> Result<Place, Refusal>
        ensures { MatchResult result (λ place. (place ≡ slot) × (place < 1024) × (slot < count self.now)) (λ why. (count self.now ≤ slot) × (why ≡ NoSlot)) }
    {
        let count = self.count();
        Place::of(slot)
            .filter(|_| slot < count)
            .ok_or(Refusal::NoSlot)
    }

    // The row of a slot.
    pub(crate) fn row(&self, i: Place) -> &[u16]
        ensures { result.now ≡ row self.now i }
    {
        self.rows
            .as_slice()
            .get(i.index())
            .map_or(&[], |row| row.slots())
    }

    // The number that counters of this layer count modulo.
    fn modulus(&self) -> u64
        ensures value { result ≡ modulus self.now }
        ensures least { 4 ≤ result }
        ensures most { result ≤ 65536 }
    {
        u64::from(self.depth.modulus())
    }

    // How often n units more make the counter of a slot run over.
    pub(crate) fn carry(&self, i: Place, n: u32) -> u32
        ensures { result ≡ carry self.now i n }
    {
        let sum = u64::from(self.parts[i.index()]) + u64::from(n);
        (sum / self.modulus()) as u32
    }

    // Counts n units more in a slot.
    pub(crate) fn count_more(&mut self, i: Place, n: u32)
        requires { self.old.weight + n ≤ 2 ^ 40 }
        ensures added { self.new ≡ added self.old i n }
        ensures wiring { SameWiring self.old self.new }
        ensures room { Room self.old }
    {
        let carry = self.carry(i, n);
        let i = i.index();
        if carry >= 1 {
            self.bits[i] = 1;
        }
        let sum = u64::from(self.parts[i]) + u64::from(n);
        self.parts[i] = (sum % self.modulus()) as u16;
        self.weight += u64::from(n);
        self.rounds = 0;
    }

    // One slot more, empty, where there is room for it.
    pub(crate) fn wire(&mut self, row: Row) -> u16
        requires { count self.old < 1024 }
        ensures number { result ≡ count self.old }
        ensures wired { self.new ≡ wired self.old row }
        ensures room { Room self.old }
    {
        let slot = self.count();
        let i = usize::from(slot);
        self.parts[i] = 0;
        self.bits[i] = 0;
        self.rows.push(row);
        slot
    }

    // The span of a slot at the settled rounds. Before any round a raised slot has run over once at
    // the least.
    pub(crate) fn span(&self, i: Place) -> Span
        ensures { result ≡ known_span self.now i }
    {
        let i = i.index();
        let part = u64::from(self.parts[i]);
        if self.bits[i] != 1 {
            return Span::closed(part);
        }
        if self.rounds == 0 {
            return Span {
                low: self.holds(part, 1),
                high: self.weight,
            };
        }
        Span {
            low: self.holds(part, self.lows[i]),
            high: self.holds(part, self.highs[i]),
        }
    }

    // What a slot holds whose counter ran over so many times, at most the weight.
    fn holds(&self, part: u64, times: u64) -> u64
        ensures { result ≡ min self.now.weight (part + modulus self.now * times) }
    {
        let carried = self.modulus().saturating_mul(times);
        part.saturating_add(carried).min(self.weight)
    }
}
