// A reader stands in a trace, at the kind byte of the next record.
ghost use Rattle.std.specs.Prelude.{◌≡◌, ◌<◌, ◌≤◌, length, take, MatchResult};
ghost use Rattle.trace.specs.Kinds.{code};
ghost use Rattle.trace.specs.Layout.{body_length};
ghost use Rattle.trace.specs.declared.fault.Fault.TheVariants.{CutShort};

use crate::fault::Fault;
use crate::kind::Kind;
use crate::record::Record;

#[derive(Drop)]
pub struct Reader<'a> {
    trace: &'a [u8],
    place: usize,
    ghost within: { place ≤ length trace.now },
}

// The body of a record of the kind, of what stands behind its kind byte. Each arm of a match asks for its own, where
// the length is a constant.
fn body_of(kind: Kind, rest: &[u8], place: usize) -> Result<&[u8], Fault>
    ensures { MatchResult result (λ body. (body.now ≡ take (body_length (code kind)) rest.now) × (length body.now ≡ body_length (code kind))) (λ why. (why ≡ CutShort place) × (length rest.now < body_length (code kind))) }
{
    rest.get(..kind.body_len()).ok_or(Fault::CutShort { place })
}

impl<'a> Reader<'a> {
    ghost use Rattle.std.specs.Prelude.{◌≡◌, ℕ, ◌+◌};
    ghost use Rattle.trace.specs.Answers.{told, answer, Stands};
    ghost use Rattle.trace.specs.Layout.{Reading, Lays};

    // A reader before the first record.
    pub fn new(trace: &'a [u8]) -> Reader<'a>
        ensures { (R : Reading) → Lays R trace.now → Stands R 0 result }
    {
        Reader { trace, place: 0 }
    }

    // The next record. Past the last one it answers what stands there, the end or a fault, again
    // and again.
    pub fn next(&mut self) -> Result<Record<'a>, Fault>
        ensures { (R : Reading) (k : ℕ) → Stands R k self.old → (told result ≡ answer R k) × Stands R (k + 1) self.new }
    {
        let place = self.place;
        let [kind, rest @ ..] = &self.trace[place..] else {
            return Err(Fault::NoEnd { place });
        };
        let kind = Kind::try_from(*kind).map_err(|_| Fault::UnknownKind { place })?;
        let record = match kind {
            Kind::Enrol => {
                let (id, slots) = body_of(kind, rest, place)?.split_at(8);
                Record::Enrol { place, id, slots }
            }
            Kind::Amount => {
                let (id, units) = body_of(kind, rest, place)?.split_at(8);
                Record::Amount { place, id, units }
            }
            Kind::Remark => Record::Remark {
                place,
                text: body_of(kind, rest, place)?,
            },
            // here the reader stays, so that its answer comes again
            Kind::End if rest.is_empty() => return Ok(Record::End { place }),
            Kind::End => return Err(Fault::AfterEnd { place }),
        };
        self.place += 1 + kind.body_len();
        Ok(record)
    }
}
