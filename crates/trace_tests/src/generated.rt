// Bytes made from a seed, mostly such that records come about, read by both readers.
ghost use Rattle.std.specs.Prelude.{◌<◌};

use crate::second::{Flaw, Sighted, Tally, watch};
use std::alloc::{AllocError, Global};
use std::test::Fail;
use trace::fault::Fault;
use trace::kind::Kind;
use trace::survey::Survey;

// A row of numbers that is the same for the same seed.
#[derive(Drop)]
struct Dice {
    seed: u64,
}

impl Dice {
    fn roll(&mut self) -> u64 {
        self.seed = self
            .seed
            .wrapping_mul(6364136223846793005)
            .wrapping_add(1442695040888963407);
        self.seed
    }

    // A number below `limit`, which is not 0, from the high bits.
    fn below(&mut self, limit: u64) -> u64
        requires { 0 < limit }
    {
        (self.roll() >> 33) % limit
    }

    fn byte(&mut self) -> u8 {
        (self.roll() >> 40 & 255) as u8
    }
}

fn push_record(trace: &mut Vec<u8>, dice: &mut Dice) -> Result<(), AllocError> {
    let kind = match dice.below(40) {
        0..=12 => Kind::Enrol,
        13..=26 => Kind::Amount,
        27..=36 => Kind::Remark,
        37..=38 => Kind::End,
        // any byte, mostly no kind
        _ => {
            trace.push((dice.seed & 255) as u8)?;
            return Ok(());
        }
    };
    trace.push(kind as u8)?;
    for _ in 0..kind.body_len() {
        trace.push(dice.byte())?;
    }
    Ok(())
}

fn made(heap: Global, seed: u64) -> Result<Vec<u8>, AllocError> {
    let mut trace = Vec::new(heap);
    let mut dice = Dice { seed };
    for _ in 0..dice.below(12) {
        push_record(&mut trace, &mut dice)?;
    }
    // some are cut in the middle of a record
    let spare = (dice.below(20) as usize).saturating_sub(10);
    let len = trace.len().saturating_sub(spare);
    trace.truncate(len);
    Ok(trace)
}

// What the first reader finds, in the words of the second.
impl From<Fault> for Flaw {
    fn from(fault: Fault) -> Flaw {
        match fault {
            Fault::UnknownKind { .. } => Flaw::NoKind,
            Fault::CutShort { .. } => Flaw::Short,
            Fault::AfterEnd { .. } => Flaw::Behind,
            Fault::NoEnd { .. } => Flaw::Missing,
        }
    }
}

impl From<Survey> for Sighted {
    fn from(survey: Survey) -> Sighted {
        let counts = survey.counts;
        Sighted {
            tally: Tally {
                enrols: counts.enrols as u64,
                amounts: counts.amounts as u64,
                remarks: counts.remarks as u64,
                units: counts.units,
            },
            outcome: survey
                .outcome
                .map_err(|fault| (Flaw::from(fault), fault.place())),
        }
    }
}

#[test]
fn both_readers_agree(rt: HostRuntime) -> Result<(), Fail> {
    let mut flaws = Vec::new(rt.alloc());
    for seed in 0..2000u64 {
        let trace = made(rt.alloc(), seed)?;
        let survey = Survey::of(&trace);
        let second = watch(&trace);
        assert_eq!(rt; Sighted::from(survey), second);
        if let Err(fault) = survey.outcome {
            assert_eq!(rt; fault.number(), Flaw::from(fault) as u8);
        }
        flaws.push(second.outcome.err().map(|(flaw, _)| flaw))?;
    }
    // every outcome occurred often
    for wanted in [
        None,
        Some(Flaw::NoKind),
        Some(Flaw::Short),
        Some(Flaw::Behind),
        Some(Flaw::Missing),
    ] {
        assert!(rt; flaws.iter().filter(|flaw| **flaw == wanted).count() > 20);
    }
    Ok(())
}
