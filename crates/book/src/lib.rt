// The book of an epoch: what its calls are to answer, said over flows and records alone, and what follows from that for
// whole lists of calls and for the lines of the flows. Nothing here runs; whoever keeps an epoch proves against it.
#![tactic(auto)]

ghost use Rattle.book.specs.LineLaws.{LinesHold, LinesTighten, LinesClose};
ghost use Rattle.book.specs.Replays.{ReplaysAsCalls};
ghost use Rattle.book.specs.Runs.{UnitsAddUp};

// The units of a flow are the amounts that were accepted under its identifier, and the total is all of them; the flows are
// those that were enrolled.
pub fn units_add_up()
    ensures { UnitsAddUp }
{}

// A replay makes the calls that the records of its trace stand for, up to the first that is denied.
pub fn replays_as_calls()
    ensures { ReplaysAsCalls }
{}

// The units of a flow lie in its line.
pub fn lines_hold()
    ensures { LinesHold }
{}

// More rounds over spans that are no wider give no lower low and no higher high.
pub fn lines_tighten()
    ensures { LinesTighten }
{}

// At more rounds than flows, over closed spans, a flow that is in no knot is known exactly.
pub fn lines_close()
    ensures { LinesClose }
{}
