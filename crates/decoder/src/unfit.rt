// Why a claimant or a span was not taken.
#[derive(Clone, Copy, PartialEq, Eq, Debug)]
pub enum Unfit {
    // there are 1,024 already
    Full,
    // a floor, a low or a high is above 2^40
    Large,
    // a slot of the row is not below 1,024
    Slot,
}
