// One round after round 0: what each slot tells each claimant, and what the claimants make of it.
ghost use Rattle.std.specs.Prelude.{◌≡◌, suc, ◌≤◌, map, length};
ghost use Rattle.rounds.specs.Rounds.{odd, tighter, tightest, rest, reply, message, estimate};
ghost use Rattle.decoder.specs.Inputs.{claimants, span_at};
ghost use Rattle.decoder.specs.Decoding.{Tabled};
ghost use Rattle.decoder.specs.Area.{Held, but};

use crate::claims::Claims;
use crate::limits::{ENTRIES, PLACES};
use crate::spans::Spans;
use arrayvec::ArrayVec;

// The messages of a round: those of each claimant, one to each slot of its row.
pub(crate) type Messages = [[u64; PLACES]; ENTRIES];

// What a round reads: the claimants, the spans, and the messages of the round before, of which `past` were after round 0.
#[derive(Clone, Copy)]
pub(crate) struct Round<'a> {
    pub(crate) claims: &'a Claims,
    pub(crate) spans: &'a Spans,
    pub(crate) past: u16,
    pub(crate) old: &'a Messages,
    ghost held: { Held (claimants claims.now) (span_at spans.now) past old.now },
}

impl Round<'_> {
    // An odd round bounds from above.
    fn up(&self) -> bool
        ensures { result ≡ odd (suc self.now.past) }
    {
        self.past % 2 == 0
    }

    // The lesser of two bounds from above, or the greater of two from below.
    // It goes by a flag, as the definitions of the rounds do.
    fn tighter(&self, x: u64, y: u64) -> u64
        ensures { result ≡ tighter (odd (suc self.now.past)) x y }
    {
        if self.up() { x.min(y) } else { x.max(y) }
    }

    // The sum of what the claimants other than i have sent to the slot.
    // A loop, as a chain's `sum` wants a bound on what it adds up, and the bound of a message is known entry by entry; by
    // index, as over a `zip` with the messages a decoding takes nearly twice as long.
    fn others(&self, slot: u16, i: usize) -> u64
        ensures { let cs = claimants self.now.claims.now in
            result ≡ rest cs (λ j. message cs (span_at self.now.spans.now) self.now.past j slot) slot i }
    {
        let mut total = 0;
        for (j, claim) in self.claims.entries.as_slice().iter().enumerate() {
            if j != i {
                total += claim.sent(&self.old[j], slot);
            }
        }
        total
    }

    // The reply of the slot to claimant i, never under the claimant's floor.
    fn reply(&self, slot: u16, i: usize) -> u64
        ensures { let cs = claimants self.now.claims.now in let spans = span_at self.now.spans.now in
            result ≡ reply cs spans (odd (suc self.now.past)) (message cs spans self.now.past) i slot }
    {
        let edge = self.spans.edge(self.up(), slot);
        let share = edge.saturating_sub(self.others(slot, i));
        share.max(self.claims.floor(i))
    }

    // The replies of the slots of a row to claimant i, in their order.
    fn replies(&self, row: &[u16], i: usize) -> ArrayVec<u64, PLACES>
        requires { length row.now ≤ 3 }
        ensures { let cs = claimants self.now.claims.now in let spans = span_at self.now.spans.now in
            result.items ≡ map (reply cs spans (odd (suc self.now.past)) (message cs spans self.now.past) i) row.now }
    {
        let mut replies = ArrayVec::new();
        for slot in row {
            replies.push(self.reply(*slot, i));
        }
        replies
    }

    // The tightest of the replies but the one at `skip`; of all of them if there is none at that place.
    fn tightest_but(&self, replies: &[u64], skip: usize) -> u64
        ensures { result ≡ tightest (odd (suc self.now.past)) (but skip replies.now) }
    {
        replies
            .iter()
            .enumerate()
            .filter(|(place, _)| *place != skip)
            .map(|(_, reply)| *reply)
            .reduce(|x, y| self.tighter(x, y))
            .unwrap_or(0)
    }

    // Each claimant that takes part answers the replies of its slots: each slot with what the others replied.
    pub(crate) fn run(&self, fresh: &mut Messages, bounds: &mut [u64; ENTRIES])
        ensures held { Held (claimants self.now.claims.now) (span_at self.now.spans.now) (suc self.now.past) fresh.new }
        ensures bounds { let cs = claimants self.now.claims.now in
            Tabled cs (estimate cs (span_at self.now.spans.now) (suc self.now.past)) bounds.old bounds.new }
    {
        for (i, claim) in self.claims.entries.as_slice().iter().enumerate() {
            // asked of the claimant, and not of its slots, so that the compiler knows how many these are
            if claim.row.is_some() {
                let row = claim.slots();
                let replies = self.replies(row, i);
                let replies = replies.as_slice();
                // by index: of a loop over `iter_mut()` behind an adapter no proof knows what it wrote
                fresh[i] = [
                    self.tightest_but(replies, 0),
                    self.tightest_but(replies, 1),
                    self.tightest_but(replies, 2),
                ];
                bounds[i] = self.tightest_but(replies, replies.len());
            }
        }
    }
}
