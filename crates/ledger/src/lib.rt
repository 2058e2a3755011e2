// The ledger of a braid, and the braid's promise: any list of calls on a braid over a fresh store is
// answered as the ledger answers, and its spans are those of the rules for the ledger's totals.
#![tactic(auto)]

pub mod calls;
pub mod fixed;
pub mod run;
pub mod runs;
