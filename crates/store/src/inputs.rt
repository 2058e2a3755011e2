// What the decoder is given by whoever stands over a store: claimants on rows, and the spans of the store.
// Rows that are wired and spans of a live store are always taken; a refusal here is for what cannot come about.
ghost use Rattle.std.specs.Prelude.{◌≡◌, Err, MatchResult};
ghost use Rattle.decoder.specs.Inputs.{claimants, spans_in};
ghost use Rattle.store.specs.Inputs.{claim_said, claims_then};
ghost use Rattle.store.specs.Meaning.{Live};
ghost use Rattle.store.specs.Refusals.{told};
ghost use Rattle.store.specs.Sums.{listed};

use crate::refusal::Refusal;
use crate::store::Store;
use decoder::claims::Claims;
use decoder::spans::Spans;
use wiring::row::Row;

// One claimant more, on these slots. Slots that make no row are refused as slots that are not there.
pub fn push_claimant(claims: &mut Claims, slots: &[u16], floor: u64) -> Result<u16, Refusal>
    ensures said { told result ≡ claim_said (claimants claims.old) slots.now floor }
    ensures grows { claimants claims.new ≡ claims_then (claimants claims.old) slots.now floor }
{
    let row = Row::try_from(slots).map_err(|_| Refusal::NoSlot)?;
    Ok(claims.push(row, floor)?)
}

// The spans of all slots at the settled rounds.
pub fn spans_of<S: Store>(below: &S) -> Result<Spans, Refusal>
    ensures { Live S.Store.meaning below.now → MatchResult result (λ spans. spans_in spans ≡ listed (S.Store.meaning.slots below.now) (S.Store.meaning.spans below.now (S.Store.meaning.rounds below.now))) (λ _. ⊥) }
{
    let mut spans = Spans::new();
    // by number, since a store is asked for one slot at a time
    for slot in 0..below.slots() {
        let span = below.span(slot)?;
        spans.push(span.low, span.high)?;
    }
    Ok(spans)
}
