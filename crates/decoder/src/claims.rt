// Claimants, for the decoder: up to 1,024, each with a row and a floor, or with no row if it takes no part.
ghost use Rattle.std.specs.Prelude.{◌≡◌, ◌^◌, ◌≤◌, true, [], IfOk, length};
ghost use Rattle.decoder.specs.Limits.{rises, within, slots_in, reach};

use crate::entries::next_number;
use crate::limits::{CEILING, ENTRIES, PLACES, SLOTS};
use crate::unfit::Unfit;
use arrayvec::ArrayVec;
use wiring::row::Row;

// One claimant. The limits keep every sum of messages below 2^64.
#[derive(Clone, Copy)]
pub(crate) struct Claim {
    pub(crate) row: Option<Row>,
    pub(crate) floor: u64,
    ghost rising: { rises row ≡ true },
    ghost reaches: { within row ≡ true },
    ghost small: { floor ≤ 2 ^ 40 },
}

// A claimant that takes no part. By hand, since a struct with ghost fields has no derived default.
impl Default for Claim {
    fn default() -> Claim {
        Claim {
            row: None,
            floor: 0,
        }
    }
}

impl Claim {
    ghost use Rattle.decoder.specs.Area.{to};

    // The slots of its row, none if it takes no part.
    pub(crate) fn slots(&self) -> &[u16]
        ensures value { result.now ≡ slots_in self.now.row }
        ensures short { length result.now ≤ 3 }
    {
        self.row.as_ref().map_or(&[], |row| row.slots())
    }

    // What it has sent to the slot, 0 if it does not use it.
    pub(crate) fn sent(&self, messages: &[u64; PLACES], slot: u16) -> u64
        ensures { result ≡ to slot (slots_in self.now.row) messages.now }
    {
        // by place, as with a `zip` and `find` a decoding takes twice as long
        match self.slots().iter().position(|own| *own == slot) {
            Some(place) => messages[place],
            None => 0,
        }
    }
}

// Whether each slot is below 1,024.
fn reaches(slots: &[u16]) -> bool
    ensures { result ≡ reach slots.now }
{
    slots.iter().all(|slot| *slot < SLOTS)
}

// The claimants in the order of their numbers.
#[derive(Drop)]
pub struct Claims {
    pub(crate) entries: ArrayVec<Claim, ENTRIES>,
}

#[tactic(auto, unfolding(crate::specs::Inputs::claimants))]
impl Claims {
    ghost use Rattle.rounds.specs.Rounds.{floor_of, nobody};
    ghost use Rattle.decoder.specs.Inputs.{claimants, claim_told, grown};

    pub fn new() -> Claims
        ensures { claimants result ≡ [] }
    {
        Claims {
            entries: ArrayVec::new(),
        }
    }

    // One more claimant, that takes part. It answers the claimant's number.
    pub fn push(&mut self, row: Row, floor: u64) -> Result<u16, Unfit>
        ensures answer { result ≡ claim_told (claimants self.old) (record { row = row; floor = floor }) }
        ensures grows { claimants self.new
            ≡ grown result (claimants self.old) (record { row = row; floor = floor }) }
    {
        let number = next_number(&self.entries)?;
        if floor > CEILING {
            return Err(Unfit::Large);
        }
        if !reaches(row.slots()) {
            return Err(Unfit::Slot);
        }
        let row = Some(row);
        self.entries.push(Claim { row, floor });
        Ok(number)
    }

    // One more claimant, that takes no part.
    pub fn push_absent(&mut self) -> Result<u16, Unfit>
        ensures answer { result ≡ claim_told (claimants self.old) nobody }
        ensures grows { claimants self.new ≡ grown result (claimants self.old) nobody }
    {
        let number = next_number(&self.entries)?;
        let row = None;
        self.entries.push(Claim { row, floor: 0 });
        Ok(number)
    }

    // The floor of claimant i, 0 if there is none of that number.
    pub(crate) fn floor(&self, i: usize) -> u64
        ensures { result ≡ floor_of (claimants self.now) i }
    {
        self.entries
            .as_slice()
            .get(i)
            .map_or(0, |claim| claim.floor)
    }
}
