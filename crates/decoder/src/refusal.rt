// Why a decoding was refused.
#[derive(Clone, Copy, PartialEq, Eq, Debug)]
pub enum Refusal {
    // more than 2,048 rounds
    Rounds,
    // a work area of fewer than 7,168 numbers
    Area,
}
