// Wiring: which slots a counter or a flow adds to, and how deep a counter is.
// Both are types that exist only in their lawful form, so no layer above tests them again.
#![tactic(auto)]

pub mod depth;
pub mod refusal;
pub mod row;
