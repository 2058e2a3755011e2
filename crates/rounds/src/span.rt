// A span: what is known of a total. It lies from `low` to `high`, both of them included, and is
// known exactly where the two are equal: the span is then closed.
ghost use Rattle.std.specs.Prelude.{◌≡◌};
ghost use Rattle.rounds.specs.Spans.{closed_at};

#[derive(Clone, Copy, PartialEq, Eq, Debug)]
pub struct Span {
    pub low: u64,
    pub high: u64,
}

impl Span {
    // The span of a total that is known exactly.
    pub fn closed(total: u64) -> Span
        ensures { result ≡ closed_at total }
    {
        Span {
            low: total,
            high: total,
        }
    }
}
