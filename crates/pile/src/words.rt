// A call and its answer, in words.
use ledger::calls::{Answer, Call, Done};
use std::fmt;

#[derive(Clone, Copy, PartialEq, Eq, Debug)]
pub struct Told<'a> {
    pub call: &'a Call<'a>,
    pub answer: &'a Answer,
}

impl fmt::Display for Told<'_> {
    fn fmt<W: fmt::Write>(&self, f: &mut fmt::Formatter<W>) -> fmt::Result {
        match self.call {
            Call::Wire { slots } => write!(f, "wire on {slots:?}: ")?,
            Call::Add { slot, units } => write!(f, "add {units} to slot {slot}: ")?,
            Call::Settle { rounds, room } => write!(
                f,
                "settle at {rounds} rounds in {room} numbers: "
            )?,
        }
        match self.answer {
            Ok(Done::Wired(slot)) => write!(f, "slot {slot}"),
            Ok(Done::Added(weight)) => write!(f, "weight {weight}"),
            Ok(Done::Settled(rounds)) => write!(f, "settled at {rounds}"),
            Err(why) => write!(f, "declined with {}", why.number()),
        }
    }
}
