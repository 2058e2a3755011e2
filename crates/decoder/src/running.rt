// The rounds one after another, in a work area.
ghost use Rattle.std.specs.Prelude.{◌≡◌, ℕ, ◌<◌, ◌≤◌, length, slice_index};
ghost use Rattle.rounds.specs.declared.span.Span.{Span};
ghost use Rattle.rounds.specs.Rounds.{floor_of, Low, High};
ghost use Rattle.decoder.specs.Inputs.{claimants, span_at};
ghost use Rattle.decoder.specs.Decoding.{Tabled};
ghost use Rattle.decoder.specs.Area.{Held};

use crate::claims::Claims;
use crate::limits::{ENTRIES, PLACES};
use crate::round::{Messages, Round};
use crate::spans::Spans;
use crate::work::{AREA, clear};

// Round 0: the floor of each claimant that takes part is its message to each slot, and its low.
fn start(claims: &Claims, messages: &mut Messages, lows: &mut [u64; ENTRIES])
    ensures held { (spans : ℕ → Span) → Held (claimants claims.now) spans 0 messages.new }
    ensures lows { Tabled (claimants claims.now) (floor_of (claimants claims.now)) lows.old lows.new }
{
    for (i, claim) in claims.entries.as_slice().iter().enumerate() {
        if !claim.slots().is_empty() {
            // by index: of a loop over `iter_mut()` behind an adapter no proof knows what it wrote
            messages[i] = [claim.floor; PLACES];
            lows[i] = claim.floor;
        }
    }
}

// All the rounds, in a work area, which is left clear. The messages of even rounds have one part of it, and those of
// odd rounds another. Claims and spans are lent side by side, as `decode` is lent them.
pub(crate) fn run(
    claims: &Claims,
    spans: &Spans,
    rounds: u16,
    area: &mut [u64; AREA],
    lows: &mut [u64; ENTRIES],
    highs: &mut [u64; ENTRIES],
)
    ensures low { let cs = claimants claims.now in Tabled cs (Low cs (span_at spans.now) rounds) lows.old lows.new }
    ensures high { let cs = claimants claims.now in
        1 ≤ rounds → Tabled cs (High cs (span_at spans.now) rounds) highs.old highs.new }
    ensures high_untouched { rounds ≡ 0 → highs.new ≡ highs.old }
    ensures long { length area.new ≡ 7168 }
    ensures clear { (k : ℕ) → k < 7168 → slice_index area.new k ≡ 0 }
{
    let (rows, _) = area.as_chunks_mut::<PLACES>();
    let (evens, rows) = rows.split_first_chunk_mut::<ENTRIES>().unwrap();
    let (odds, _) = rows.split_first_chunk_mut::<ENTRIES>().unwrap();
    start(claims, evens, lows);
    for past in 0..rounds {
        // Two arms, since the check does not cover references that are chosen in one place and used in another.
        if past % 2 == 0 {
            let round = Round {
                claims,
                spans,
                past,
                old: evens,
            };
            round.run(odds, highs);
        } else {
            let round = Round {
                claims,
                spans,
                past,
                old: odds,
            };
            round.run(evens, lows);
        }
    }
    clear(area);
}
