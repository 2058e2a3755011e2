// What the decoder is given of a layer: its raised slots as claimants. Rows that were wired are always
// taken; a refusal here is for what cannot come about.
ghost use Rattle.std.specs.Prelude.{◌≡◌, ℕ, ◌<◌, true, [], ◌∷◌, ◌++◌, length, Ok, MatchResult};
ghost use Rattle.decoder.specs.Inputs.{claimants as given_claimants};
ghost use Rattle.store.specs.Meaning.{Within};
ghost use Rattle.braid.specs.BraidMeaning.{claimant_of, claimants};
ghost use Rattle.braid.specs.Layers.{Claimable};

use crate::layer::Layer;
use decoder::claims::Claims;
use decoder::unfit::Unfit;
use store::refusal::Refusal;
use wiring::row::Row;

// A slot as a claimant, who takes part if it is raised.
fn push_claim(claims: &mut Claims, bit: u8, row: Row) -> Result<u16, Unfit>
    ensures { Within 1024 row → length (given_claimants claims.old) < 1024 → (result ≡ Ok (length (given_claimants claims.old))) × (given_claimants claims.new ≡ given_claimants claims.old ++ claimant_of bit row ∷ []) }
{
    if bit == 1 {
        claims.push(row, 1)
    } else {
        claims.push_absent()
    }
}

pub(crate) fn claims_of(layer: &Layer) -> Result<Claims, Refusal>
    ensures { Claimable layer.now → MatchResult result (λ claims. given_claimants claims ≡ claimants layer.now) (λ _. ⊥) }
{
    let mut claims = Claims::new();
    for (row, bit) in layer.rows.as_slice().iter().zip(&layer.bits) {
        push_claim(&mut claims, *bit, *row)?;
    }
    Ok(claims)
}
