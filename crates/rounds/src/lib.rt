// The laws of the decoding rounds and some small cases, each as the contract of a function.
// The definitions are in specs/Rounds.antt; nothing here runs, and whoever runs the rounds proves against them.
#![tactic(auto)]

pub mod span;

ghost use Rattle.rounds.specs.Laws.{BoundsHold, MoreRoundsTighten};
ghost use Rattle.rounds.specs.Laws.{OutsideLooseKnotsClose, OutsideKnotsClose};
ghost use Rattle.rounds.specs.Cases.{ChainCloses, TwinsStayOpen, ThreeNarrow, MixedCloses};

// Amounts that fit the spans lie from Low to High.
pub fn bounds_hold()
    ensures { BoundsHold }
{}

// More rounds over spans that are no wider give no lower Low and no higher High.
pub fn more_rounds_tighten()
    ensures { MoreRoundsTighten }
{}

// At more rounds than claimants, whoever is in no loose knot is known exactly.
pub fn outside_loose_knots_close()
    ensures { OutsideLooseKnotsClose }
{}

// The same with every span closed and plain knots.
pub fn outside_knots_close()
    ensures { OutsideKnotsClose }
{}

// Two claimants that share one slot close at the second round.
pub fn chain_closes()
    ensures { ChainCloses }
{}

// Two claimants on one row stay open at every round.
pub fn twins_stay_open()
    ensures { TwinsStayOpen }
{}

// Three claimants of which any two share two slots, after two rounds.
pub fn three_narrow()
    ensures { ThreeNarrow }
{}

// Rows of two and three slots, two floors and an open slot.
pub fn mixed_closes()
    ensures { MixedCloses }
{}
