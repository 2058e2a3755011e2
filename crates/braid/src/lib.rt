// A braid: many small counters over a store that few of them run over into. It is a store itself,
// so braids can be piled on one another.
#![tactic(auto)]

pub mod braid;
mod inputs;
pub mod layer;
mod place;
pub mod refusal;
mod table;
