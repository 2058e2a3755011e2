// What an admitted list fixes, as the contract of a function. Nothing here runs.
ghost use Rattle.ledger.specs.Fixed.{FixedSpans};

// A braid over a flat table that admits a list can have only one table below and only one span for each slot.
pub fn spans_fixed()
    ensures { FixedSpans }
{}
