// Piles of one and two braids, wired and filled from a seed, and told by both accounts.
use crate::second::{Known, Slot, Tier, closed};
use crate::watching::settle;
use braid::braid::Braid;
use rounds::span::Span;
use std::alloc::{AllocError, Global};
use std::process::Abort;
use std::test::Fail;
use store::flat::Flat;
use store::store::Store;
use wiring::depth::Depth;
use wiring::row::Row;

// Numbers from a seed, as in the tests of traces: two crates of tests share no code.
#[derive(Drop)]
struct Dice {
    seed: u64,
}

impl Dice {
    // A number below the limit, or 0.
    fn roll(&mut self, limit: u16) -> u16 {
        self.seed = self
            .seed
            .wrapping_mul(6364136223846793005)
            .wrapping_add(1442695040888963407);
        let most = u64::from(limit.max(1));
        ((self.seed >> 33) % most & 0xffff) as u16
    }

    // Three slots of that many, rising.
    fn row(&mut self, many: u16) -> [u16; 3] {
        let a = self.roll(many.saturating_sub(2));
        let past = a.saturating_add(1);
        let b = past.saturating_add(self.roll(many.saturating_sub(1).saturating_sub(past)));
        let past = b.saturating_add(1);
        let c = past.saturating_add(self.roll(many.saturating_sub(past)));
        [a, b, c]
    }

    // Mostly a few units, and now and then very many.
    fn units(&mut self) -> u32 {
        match self.roll(12) {
            0 => u32::from(self.roll(65535)).wrapping_mul(65537),
            1 => 0,
            _ => u32::from(self.roll(40)),
        }
    }

    fn bits(&mut self) -> u8 {
        match self.roll(4) {
            0 => 4,
            1 => 3,
            _ => 2,
        }
    }
}

const ROUNDS: [u16; 6] = [0, 1, 2, 3, 5, 8];

// How many slots that had run over were found out at the most rounds, and how many stayed open.
#[derive(Clone, Copy, Default)]
struct Seen {
    closed: u32,
    open: u32,
}

impl Seen {
    fn and(self, other: Seen) -> Seen {
        Seen {
            closed: self.closed.wrapping_add(other.closed),
            open: self.open.wrapping_add(other.open),
        }
    }
}

// A braid beside its second account.
#[derive(Drop)]
struct Told<S: Store> {
    braid: Braid<S>,
    tier: Tier,
}

impl<S: Store + Drop> Told<S> {
    // A braid with three to eight slots on rows of the store below.
    fn wired(rt: &impl Abort, heap: Global, below: S, dice: &mut Dice) -> Result<Told<S>, Fail> {
        let width = below.slots();
        let bits = dice.bits();
        let mut braid = Braid::new(below, Depth::new(bits)?);
        let mut tier = Tier::new(heap, bits);
        for slot in 0..dice.roll(6).saturating_add(3) {
            let [a, b, c] = dice.row(width);
            assert_eq!(rt; braid.wire(Row::new(a, b, c)?)?, slot);
            tier.slots.push(Slot {
                row: [a, b, c],
                total: 0,
            })?;
        }
        Ok(Told { braid, tier })
    }

    // One addition to thirty.
    fn add(&mut self, rt: &impl Abort, dice: &mut Dice) -> Result<(), Fail> {
        for _ in 0..=dice.roll(30) {
            let slot = dice.roll(self.braid.slots());
            let n = dice.units();
            self.tier.add(usize::from(slot), n);
            assert_eq!(rt; self.braid.add(slot, n)?, self.tier.weight());
        }
        assert_eq!(rt; self.braid.rounds(), 0);
        Ok(())
    }

    // The braid tells what the second account knows, and every total lies in its span.
    fn agree(&self, rt: &impl Abort, known: &[Known]) -> Result<Seen, Fail> {
        let mut seen = Seen::default();
        assert_eq!(rt; usize::from(self.braid.slots()), known.len());
        for (i, (known, slot)) in (0..self.braid.slots()).zip(known.iter().zip(&self.tier.slots)) {
            let span = self.braid.span(i)?;
            let Known { low, high } = *known;
            assert_eq!(rt; span, Span { low, high });
            assert!(rt; span.low <= slot.total && slot.total <= span.high);
            if span.low < span.high {
                seen.open = seen.open.wrapping_add(1);
            } else if slot.total >= self.tier.modulus {
                seen.closed = seen.closed.wrapping_add(1);
            }
        }
        Ok(seen)
    }

    // Twice: fills the braid, and holds it against what is known at rising rounds.
    fn hold<F: Fn(&Tier, u16) -> Result<Vec<Known>, AllocError>>(
        &mut self,
        rt: &impl Abort,
        dice: &mut Dice,
        known: F,
    ) -> Result<Seen, Fail>
        requires { F.IsAlwaysCallable known }
    {
        let mut seen = Seen::default();
        for _ in 0..2 {
            self.add(rt, dice)?;
            self.agree(rt, &known(&self.tier, 0)?)?;
            for rounds in ROUNDS {
                settle(rt, &mut self.braid, rounds)?;
                seen = self.agree(rt, &known(&self.tier, rounds)?)?;
            }
        }
        Ok(seen)
    }
}

// What the second account knows of a braid over a table.
fn over_table(
    heap: Global,
    tier: &Tier,
    width: u16,
    rounds: u16,
) -> Result<Vec<Known>, AllocError> {
    let table = tier.sums(heap, width)?;
    tier.known(heap, &closed(heap, &table)?, rounds)
}

fn one_braid(rt: &impl Abort, heap: Global, seed: u64) -> Result<Seen, Fail> {
    let mut dice = Dice { seed };
    let mut table = [5; 8];
    let width = dice.roll(6).min(5) + 3;
    let flat = Flat::new(&mut table[..usize::from(width)]);
    let mut told = Told::wired(rt, heap, flat, &mut dice)?;
    told.hold(
        rt,
        &mut dice,
        |tier, rounds| over_table(heap, tier, width, rounds),
    )
}

fn two_braids(rt: &impl Abort, heap: Global, seed: u64) -> Result<Seen, Fail> {
    let mut dice = Dice { seed };
    let mut table = [5; 8];
    let width = dice.roll(6).min(5) + 3;
    let flat = Flat::new(&mut table[..usize::from(width)]);
    let Told { braid, tier: under } = Told::wired(rt, heap, flat, &mut dice)?;
    let many = braid.slots();
    let mut told = Told::wired(rt, heap, braid, &mut dice)?;
    told.hold(rt, &mut dice, |tier, rounds| {
        let under = under.holding(heap, &tier.sums(heap, many)?)?;
        tier.known(heap, &over_table(heap, &under, width, rounds)?, rounds)
    })
}

#[test]
fn both_accounts_agree(rt: HostRuntime) -> Result<(), Fail> {
    let mut seen = Seen::default();
    for seed in 0..300u64 {
        let one = one_braid(&rt, rt.alloc(), seed)?;
        let two = two_braids(&rt, rt.alloc(), seed)?;
        seen = seen.and(one).and(two);
    }
    // both occurred often
    assert!(rt; seen.closed > 300 && seen.open > 300);
    Ok(())
}
