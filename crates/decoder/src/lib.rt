// The decoding rounds, run in memory that the caller lends, with exactly the answers of the definitions in `rounds`.
// What it needs of claimants and spans is the invariant of their types, so a call asks nothing of its caller.
#![tactic(auto)]

ghost use Rattle.std.specs.Prelude.{◌≡◌, true, false, length, is_ok};
ghost use Rattle.decoder.specs.Inputs.{claimants, span_at};
ghost use Rattle.decoder.specs.Decoding.{told, answer, Decoded};

pub mod claims;
mod entries;
mod limits;
pub mod refusal;
mod round;
mod running;
pub mod spans;
pub mod unfit;
pub mod work;

use crate::claims::Claims;
use crate::refusal::Refusal;
use crate::running::run;
use crate::spans::Spans;
use crate::work::{AREA, admitted};

// The bounds of each claimant that takes part after `rounds` rounds, written into the two tables.
// It works in the first 7,168 numbers of the lent area, whatever they hold, and leaves them 0.
// Claims and spans are lent side by side, and so are the two tables, as callers have them.
pub fn decode(
    claims: &Claims,
    spans: &Spans,
    rounds: u16,
    work: &mut [u64],
    lows: &mut [u64; 1024],
    highs: &mut [u64; 1024],
) -> Result<u16, Refusal>
    ensures answer { told result ≡ answer rounds (length work.old) }
    ensures refused { is_ok result ≡ false →
        (work.new ≡ work.old) × (lows.new ≡ lows.old) × (highs.new ≡ highs.old) }
    ensures decoded { is_ok result ≡ true → Decoded (claimants claims.now) (span_at spans.now) rounds
        work.old work.new lows.old lows.new highs.old highs.new }
{
    admitted(rounds, work.len())?;
    let area = work.first_chunk_mut::<AREA>().unwrap();
    run(claims, spans, rounds, area, lows, highs);
    Ok(rounds)
}
