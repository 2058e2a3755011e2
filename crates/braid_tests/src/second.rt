// A second account of a braid, which shares nothing with the first. It keeps no low parts, no bits and no
// bounds, but the total of every slot, and works out the rest from the totals whenever it is asked.
use std::alloc::{AllocError, Global};

#[derive(Clone, Copy, PartialEq, Eq, Debug)]
pub struct Known {
    pub low: u64,
    pub high: u64,
}

#[derive(Clone, Copy, PartialEq, Eq, Debug)]
pub struct Slot {
    pub row: [u16; 3],
    pub total: u64,
}

#[derive(Drop)]
pub struct Tier {
    pub modulus: u64,
    pub slots: Vec<Slot>,
}

// Totals that are known exactly.
pub fn closed(heap: Global, totals: &[u64]) -> Result<Vec<Known>, AllocError> {
    totals
        .iter()
        .map(|total| Known {
            low: *total,
            high: *total,
        })
        .collect(heap)
}

impl Tier {
    pub fn new(heap: Global, bits: u8) -> Tier {
        Tier {
            modulus: 2u64.saturating_pow(u32::from(bits)),
            slots: Vec::new(heap),
        }
    }

    pub fn add(&mut self, i: usize, n: u32) {
        if let Some(slot) = self.slots.get_mut(i) {
            slot.total = slot.total.saturating_add(u64::from(n));
        }
    }

    // The same slots, with these totals.
    pub fn holding(&self, heap: Global, totals: &[u64]) -> Result<Tier, AllocError> {
        let slots = self
            .slots
            .iter()
            .zip(totals)
            .map(|(slot, total)| Slot {
                row: slot.row,
                total: *total,
            })
            .collect(heap)?;
        Ok(Tier {
            modulus: self.modulus,
            slots,
        })
    }

    pub fn weight(&self) -> u64 {
        self.slots
            .iter()
            .fold(0, |sum: u64, slot| sum.saturating_add(slot.total))
    }

    // How often the counter of a slot has run over.
    fn over(&self, slot: &Slot) -> u64 {
        slot.total / self.modulus.max(1)
    }

    // What has gone down into a slot of the store below.
    fn sum(&self, place: u16) -> u64 {
        self.slots
            .iter()
            .filter(|slot| slot.row.contains(&place))
            .fold(0, |sum: u64, slot| sum.saturating_add(self.over(slot)))
    }

    // What has gone down into each of the first slots of the store below.
    pub fn sums(&self, heap: Global, many: u16) -> Result<Vec<u64>, AllocError> {
        (0..many).map(|place| self.sum(place)).collect(heap)
    }

    // What a slot told the slot below in the last round, nothing if it has not run over.
    fn sent(&self, slot: &Slot, sent: &[u64; 3], place: u16) -> u64 {
        if self.over(slot) == 0 {
            return 0;
        }
        slot.row
            .iter()
            .zip(sent)
            .find(|(to, _)| **to == place)
            .map_or(0, |(_, told)| *told)
    }

    // What the slot below, which has so much, leaves to slot i once the others have had theirs, 1 at the least.
    fn left(&self, bounds: &[u64], sent: &[[u64; 3]], i: usize, place: u16) -> u64 {
        let whole = bounds.get(usize::from(place)).copied().unwrap_or(0);
        self.slots
            .iter()
            .zip(sent)
            .enumerate()
            .filter(|(j, _)| *j != i)
            .fold(
                whole,
                |left, (_, (slot, sent))| left.saturating_sub(self.sent(slot, sent, place)),
            )
            .max(1)
    }

    // A round over bounds of one kind: the new bound of each slot, and what it tells each slot of its row, which
    // is the better bound of the other two.
    fn round<F: Fn(u64, u64) -> u64>(
        &self,
        heap: Global,
        bounds: &[u64],
        sent: &[[u64; 3]],
        better: F,
    ) -> Result<(Vec<u64>, Vec<[u64; 3]>), AllocError>
        requires { F.IsAlwaysCallable better }
    {
        let mut found = Vec::new(heap);
        let mut next = Vec::new(heap);
        for (i, slot) in self.slots.iter().enumerate() {
            let [x, y, z] = slot.row.map(|place| self.left(bounds, sent, i, place));
            found.push(better(x, better(y, z)))?;
            next.push([better(y, z), better(x, z), better(x, y)])?;
        }
        Ok((found, next))
    }

    // What is known of every slot at so many rounds, where so much is known of the slots below.
    pub fn known(
        &self,
        heap: Global,
        below: &[Known],
        rounds: u16,
    ) -> Result<Vec<Known>, AllocError> {
        let many = self.slots.len();
        let least: Vec<u64> = below.iter().map(|known| known.low).collect(heap)?;
        let most: Vec<u64> = below.iter().map(|known| known.high).collect(heap)?;
        // a list for each kind of bound, since a round replaces one of them whole
        let mut sent = vec![in heap; [1; 3]; many]?;
        let mut lows: Vec<u64> = vec![in heap; 1; many]?;
        let mut highs: Vec<u64> = vec![in heap; u64::MAX; many]?;
        for round in 1..=rounds {
            if round % 2 == 1 {
                (highs, sent) = self.round(heap, &most, &sent, |x, y| x.min(y))?;
            } else {
                (lows, sent) = self.round(heap, &least, &sent, |x, y| x.max(y))?;
            }
        }
        self.slots
            .iter()
            .zip(lows.iter().zip(&highs))
            .map(|(slot, (low, high))| Known {
                low: self.holds(slot, *low),
                high: self.holds(slot, *high),
            })
            .collect(heap)
    }

    // What a slot holds that has run over so often, if it has at all.
    fn holds(&self, slot: &Slot, times: u64) -> u64 {
        let times = if self.over(slot) > 0 { times } else { 0 };
        let part = slot.total % self.modulus.max(1);
        part.saturating_add(self.modulus.saturating_mul(times))
            .min(self.weight())
    }
}
