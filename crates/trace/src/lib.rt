// A trace: the run of records by which a line card tells what it saw in a month.
// `Reader` hands out its records one by one; `survey` goes over a whole trace and counts.
#![tactic(auto)]

pub mod fault;
pub mod kind;
pub mod number;
pub mod reader;
pub mod record;
pub mod survey;
