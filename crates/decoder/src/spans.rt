// The spans of the slots, for the decoder: up to 1,024. A slot past the last has the span 0 to 0.
ghost use Rattle.std.specs.Prelude.{◌≡◌, ◌^◌, ◌≤◌, []};

use crate::entries::next_number;
use crate::limits::{CEILING, ENTRIES};
use crate::unfit::Unfit;
use arrayvec::ArrayVec;

// One slot's span: a type of its own, since the `Span` of `rounds` has no limits.
#[derive(Clone, Copy)]
pub(crate) struct Ends {
    low: u64,
    high: u64,
    ghost low_small: { low ≤ 2 ^ 40 },
    ghost high_small: { high ≤ 2 ^ 40 },
}

// By hand, since a struct with ghost fields has no derived default.
impl Default for Ends {
    fn default() -> Ends {
        Ends { low: 0, high: 0 }
    }
}

// The spans in the order of their slots.
#[derive(Drop)]
pub struct Spans {
    entries: ArrayVec<Ends, ENTRIES>,
}

#[tactic(auto, unfolding(crate::specs::Inputs::spans_in))]
impl Spans {
    ghost use Rattle.rounds.specs.Rounds.{edge};
    ghost use Rattle.decoder.specs.Inputs.{spans_in, span_at, span_told, grown};

    pub fn new() -> Spans
        ensures { spans_in result ≡ [] }
    {
        Spans {
            entries: ArrayVec::new(),
        }
    }

    // The span of one more slot. It answers the slot's number.
    pub fn push(&mut self, low: u64, high: u64) -> Result<u16, Unfit>
        ensures answer { result ≡ span_told (spans_in self.old) (record { low = low; high = high }) }
        ensures grows { spans_in self.new
            ≡ grown result (spans_in self.old) (record { low = low; high = high }) }
    {
        let slot = next_number(&self.entries)?;
        if low > CEILING || high > CEILING {
            return Err(Unfit::Large);
        }
        self.entries.push(Ends { low, high });
        Ok(slot)
    }

    // Where a round starts from at a slot: the high of its span, or the low.
    // The definitions of the rounds tell the two kinds of rounds apart by this flag, and so does the code.
    pub(crate) fn edge(&self, up: bool, slot: u16) -> u64
        ensures { result ≡ edge up (span_at self.now slot) }
    {
        let ends = self.entries.as_slice().get(slot as usize);
        ends.map_or(0, |ends| if up { ends.high } else { ends.low })
    }
}
