// Adding to all slots of a row. What a flow is given, and what a braid carries down, goes this way.
ghost use Rattle.std.specs.Prelude.{◌+◌, ◌*◌, ◌^◌, ◌≤◌, true, length, MatchBool};
ghost use Rattle.store.specs.Meaning.{Live, Within, Spread, Spreads};
ghost use Rattle.store.specs.Refusals.{told};

use crate::refusal::Refusal;
use crate::store::{CEILING, Store};

// Whether every slot of the row is one of the first `many`.
pub fn within(row: &[u16], many: u16) -> bool
    ensures { MatchBool result (Within many row.now) (Within many row.now → ⊥) }
{
    row.iter().all(|slot| *slot < many)
}

// The additions one after another, where each is known to be accepted.
fn add_each<S: Store>(store: &mut S, row: &[u16], n: u32) -> Result<u64, Refusal>
    ensures { Live S.Store.meaning store.old → Within (S.Store.meaning.slots store.old) row.now → S.Store.meaning.weight store.old + length row.now * n ≤ 2 ^ 40 → Spread S.Store.meaning store.old store.new row.now n (told result) }
{
    for slot in row {
        store.add(*slot, n)?;
    }
    Ok(store.weight())
}

// Adds n units to each slot of the row, or to none of them. It answers the new weight.
pub fn add_to_row<S: Store>(store: &mut S, row: &[u16], n: u32) -> Result<u64, Refusal>
    ensures { Live S.Store.meaning store.old → Spreads S.Store.meaning store.old store.new row.now n (told result) }
{
    if !within(row, store.slots()) {
        return Err(Refusal::NoSlot);
    }
    // A row may have any length here, so the units may be more than a number holds.
    let units = (row.len() as u64).saturating_mul(u64::from(n));
    if store.weight().saturating_add(units) > CEILING {
        return Err(Refusal::Ceiling);
    }
    add_each(store, row, n)
}
