// A depth: how many bits a counter has, 2 to 16. A counter of that depth counts modulo 2 to the
// power of the depth.
ghost use Rattle.std.specs.Prelude.{◌≡◌, ◌^◌, ◌≤◌};
ghost use Rattle.wiring.specs.Wiring.{told, depth_from};

use crate::refusal::Refusal;
use std::marker::Model;

#[derive(Clone, Copy, PartialEq, Eq, Debug)]
pub struct Depth {
    bits: u8,
}

// Clauses see the number of bits.
impl Model for Depth {
    ghost use Rattle.std.specs.Prelude.{ℕ, ◌≤◌};

    ghost Value = { ℕ };

    ghost view = { λ depth. depth.bits };

    ghost invariant = { λ depth. (2 ≤ depth.bits) × (depth.bits ≤ 16) };

    ghost inverse = { λ bits. record { bits = bits } };
}

impl Depth {
    pub fn new(bits: u8) -> Result<Depth, Refusal>
        ensures { told result ≡ depth_from bits }
    {
        match bits {
            2..=16 => Ok(Depth { bits }),
            _ => Err(Refusal::Bits),
        }
    }

    pub fn bits(&self) -> u8
        ensures value { result ≡ self.now }
        ensures least { 2 ≤ result }
        ensures most { result ≤ 16 }
    {
        self.bits
    }

    // One more than the greatest number that a counter of this depth holds.
    pub fn modulus(&self) -> u32
        ensures value { result ≡ 2 ^ self.now }
        ensures least { 4 ≤ result }
        ensures most { result ≤ 65536 }
    {
        1 << self.bits
    }
}
