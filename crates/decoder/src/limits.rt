// How much the decoder takes. With these limits every sum of messages stays far below 2^64.
// The most claimants, and the most slots with a span.
pub(crate) const ENTRIES: usize = 1024;
// Every slot of a row is below this one.
pub(crate) const SLOTS: u16 = 1024;
// The greatest floor, low and high.
pub(crate) const CEILING: u64 = 1 << 40;
// The most slots that a row has, and so the most messages that a claimant sends in a round.
pub(crate) const PLACES: usize = 3;
