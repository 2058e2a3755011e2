// What every store means and answers. Each contract is a relation of specs/Meaning.antt, owed where
// the store is live: its making and its calls have brought it about, and it admits a list.
// `Live` is a premise of each, as a store that admits no list is a value of its type too: what that
// one answers, and what it then leaves behind, is free.
ghost use Rattle.std.specs.Prelude.{◌≡◌};
ghost use Rattle.store.specs.Meaning.{Meaning, Laws, Live, Spans, Adds, Settles};
ghost use Rattle.store.specs.Refusals.{told};

use crate::refusal::Refusal;
use rounds::span::Span;

// The weight of a store is at most this many units.
pub const CEILING: u64 = 1 << 40;

pub trait Store {
    ghost meaning: { Meaning Self };

    ghost laws: { Laws meaning };

    // How many slots there are.
    fn slots(&self) -> u16
        ensures { result ≡ meaning.slots self.now };

    // The sum of what all slots hold.
    fn weight(&self) -> u64
        ensures { result ≡ meaning.weight self.now };

    // The rounds that the store is settled at.
    fn rounds(&self) -> u16
        ensures { result ≡ meaning.rounds self.now };

    // What is known of a slot at those rounds.
    fn span(&self, slot: u16) -> Result<Span, Refusal>
        ensures { Live meaning self.now → Spans meaning self.now slot (told result) };

    // Adds units to a slot, and answers the new weight.
    fn add(&mut self, slot: u16, n: u32) -> Result<u64, Refusal>
        ensures { Live meaning self.old → Adds meaning self.old self.new slot n (told result) };

    // Works out the spans at so many rounds, in a work area that is left clear.
    fn settle(&mut self, count: u16, work: &mut [u64]) -> Result<u16, Refusal>
        ensures { Live meaning self.old → Settles meaning self.old self.new count work.old work.new (told result) };
}
