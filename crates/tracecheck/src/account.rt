// The account of a trace: eight lines, each a name, a colon and a value, always in this order.
use std::fmt;
use trace::survey::Survey;

#[derive(Clone, Copy, PartialEq, Eq, Debug)]
pub struct Account {
    pub bytes: usize,
    pub survey: Survey,
}

impl fmt::Display for Account {
    fn fmt<W: fmt::Write>(&self, f: &mut fmt::Formatter<W>) -> fmt::Result {
        let Account { bytes, survey } = self;
        let counts = &survey.counts;
        writeln!(f, "bytes: {bytes}")?;
        writeln!(f, "enrols: {}", counts.enrols)?;
        writeln!(f, "amounts: {}", counts.amounts)?;
        writeln!(f, "remarks: {}", counts.remarks)?;
        writeln!(f, "units: {}", counts.units)?;
        match survey.outcome {
            Ok(place) => {
                writeln!(f, "outcome: end")?;
                writeln!(f, "at byte: {place}")?;
                writeln!(f, "meaning: the end record, with nothing behind it")
            }
            Err(fault) => {
                writeln!(f, "outcome: fault {}", fault.number())?;
                writeln!(f, "at byte: {}", fault.place())?;
                writeln!(f, "meaning: {fault}")
            }
        }
    }
}

#[cfg(test)]
mod tests {
    use super::*;
    use std::process::Abort;
    use std::test::Fail;

    fn shown(rt: &(impl Abort + AllocGlobal), trace: &[u8], expected: &str) -> Result<(), Fail> {
        let account = Account {
            bytes: trace.len(),
            survey: Survey::of(trace),
        };
        let text = account.to_string(rt.alloc())?;
        assert!(rt; text.as_str() == expected, "{}", expected);
        Ok(())
    }

    #[test]
    fn nothing_at_all(rt: HostRuntime) -> Result<(), Fail> {
        shown(
            &rt,
            &[],
            "bytes: 0\nenrols: 0\namounts: 0\nremarks: 0\nunits: 0\noutcome: fault 14\nat byte: 0\nmeaning: a trace that stops without an end record\n",
        )
    }

    #[test]
    fn the_end_alone(rt: HostRuntime) -> Result<(), Fail> {
        shown(
            &rt,
            &[4],
            "bytes: 1\nenrols: 0\namounts: 0\nremarks: 0\nunits: 0\noutcome: end\nat byte: 0\nmeaning: the end record, with nothing behind it\n",
        )
    }

    #[test]
    fn faults_in_words(rt: HostRuntime) -> Result<(), Fail> {
        let amount = [2, 0, 0, 0, 0, 0, 0, 0, 1, 0, 0, 0, 11, 9];
        shown(
            &rt,
            &amount,
            "bytes: 14\nenrols: 0\namounts: 1\nremarks: 0\nunits: 11\noutcome: fault 11\nat byte: 13\nmeaning: a byte that is no kind of record\n",
        )?;
        shown(
            &rt,
            &amount[0..12],
            "bytes: 12\nenrols: 0\namounts: 0\nremarks: 0\nunits: 0\noutcome: fault 12\nat byte: 0\nmeaning: a record whose body is cut short\n",
        )?;
        shown(
            &rt,
            &[4, 4],
            "bytes: 2\nenrols: 0\namounts: 0\nremarks: 0\nunits: 0\noutcome: fault 13\nat byte: 0\nmeaning: an end record with bytes behind it\n",
        )
    }
}
