// What the tables of claimants and of spans have in common: their entries are numbered from 0.
ghost use Rattle.std.specs.Prelude.{◌≡◌, ◌<◌};
ghost use Rattle.decoder.specs.Inputs.{next};
ghost use Rattle.arrayvec.specs.ArrayVec.{array_vec_len};

use crate::limits::ENTRIES;
use crate::unfit::Unfit;
use arrayvec::ArrayVec;

// The number that one more entry gets, if there is room for it.
pub(crate) fn next_number<T>(entries: &ArrayVec<T, ENTRIES>) -> Result<u16, Unfit>
    ensures { result ≡ next (array_vec_len entries.now) }
{
    if entries.is_full() {
        return Err(Unfit::Full);
    }
    Ok(entries.len() as u16)
}
