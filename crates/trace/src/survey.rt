// A survey: what a whole trace holds, counted, and how it ends.
ghost use Rattle.std.specs.Prelude.{◌≡◌, ℕ, ◌+◌, ◌^◌, ◌<◌, ◌≤◌, List, [], ◌∷◌, ◌++◌};
ghost use Rattle.trace.specs.Answers.{entry, told_record};
ghost use Rattle.trace.specs.Layout.{Entry, ProperEntry, Reading, Lays, OneWay};
ghost use Rattle.trace.specs.Survey.{Counted, Surveyed, Within};

use crate::fault::Fault;
use crate::number::number;
use crate::reader::Reader;
use crate::record::Record;

// How a trace ends: with its end record, whose place this is, or with a fault.
pub type Outcome = Result<usize, Fault>;

// How many records of each kind there are, and the units that the amounts add up to.
#[derive(Clone, Copy, PartialEq, Eq, Default, Debug)]
pub struct Counts {
    pub enrols: usize,
    pub amounts: usize,
    pub remarks: usize,
    // no trace that fits a memory adds up to more than 2^96
    pub units: u128,
}

#[derive(Clone, Copy, PartialEq, Eq, Debug)]
pub struct Survey {
    pub counts: Counts,
    pub outcome: Outcome,
}

impl Counts {
    // One record more.
    fn note(&mut self, found: &Record)
        requires { Within (2 ^ 63) self.old }
        ensures counted { (es : List Entry) (p : ℕ) (e : Entry) → ProperEntry e → told_record found.now ≡ entry p e → Counted es self.old → Counted (es ++ e ∷ []) self.new }
        ensures within { (n : ℕ) → Within n self.old → Within (n + 1) self.new }
    {
        match found {
            Record::Enrol { .. } => self.enrols += 1,
            Record::Amount { units, .. } => {
                self.amounts += 1;
                // four bytes always spell a number
                self.units += u128::from(number(units).unwrap_or(0));
            }
            Record::Remark { .. } => self.remarks += 1,
            Record::End { .. } => {}
        }
    }

    // Every record of the trace, and how it ends.
    fn note_all(&mut self, trace: &[u8]) -> Outcome
        requires { Counted [] self.old }
        ensures { (R : Reading) → Lays R trace.now → Surveyed R (record { counts = self.new; outcome = result }) }
    {
        let mut reader = Reader::new(trace);
        // by a loop, since the end comes as a record, and a fault leaves at once
        loop {
            match reader.next()? {
                Record::End { place } => return Ok(place),
                found => self.note(&found),
            }
        }
    }
}

impl Survey {
    // Goes over the whole trace.
    #[tactic(auto, using(crate::proofs::Ways::one_way))]
    pub fn of(trace: &[u8]) -> Survey
        ensures one_way { OneWay trace.now }
        ensures surveyed { (R : Reading) → Lays R trace.now → Surveyed R result }
    {
        let mut counts = Counts::default();
        let outcome = counts.note_all(trace);
        Survey { counts, outcome }
    }
}
