// Stores: what keeps amounts in slots and tells spans of them. `Store` says what every store means
// and owes; `Flat` is the plainest one, a table of numbers that the caller lends.
#![tactic(auto)]

pub mod flat;
pub mod inputs;
pub mod refusal;
pub mod spread;
pub mod store;
