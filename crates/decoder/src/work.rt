// The work area that a decoding is lent: at least 7,168 numbers, which are left 0.
ghost use Rattle.std.specs.Prelude.{◌≡◌, ℕ, ◌<◌, ◌≤◌, OnOk, length, slice_index};
ghost use Rattle.decoder.specs.Decoding.{told, answer};

use crate::refusal::Refusal;

// The most rounds that can be asked for.
pub const ROUNDS: u16 = 2048;

// The fewest numbers of a work area.
pub const AREA: usize = 7168;

// The rounds, if so many can be asked for and `room` numbers are enough of a work area.
pub fn admitted(rounds: u16, room: usize) -> Result<u16, Refusal>
    ensures answer { told result ≡ answer rounds room }
    ensures few { OnOk result (rounds ≤ 2048) }
    ensures enough { OnOk result (7168 ≤ room) }
{
    if rounds > ROUNDS {
        return Err(Refusal::Rounds);
    }
    if room < AREA {
        return Err(Refusal::Area);
    }
    Ok(rounds)
}

// Every number of the area becomes 0.
pub fn clear(area: &mut [u64])
    ensures { (k : ℕ) → k < length area.old → slice_index area.new k ≡ 0 }
{
    area.fill(0);
}
