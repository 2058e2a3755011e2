// What whole lists of calls come to, as the contract of a function. Nothing here runs.
ghost use Rattle.ledger.specs.Runs.{TotalsAddUp};

// The totals and rows of a ledger are those of the calls that it accepted.
pub fn totals_add_up()
    ensures { TotalsAddUp }
{}
