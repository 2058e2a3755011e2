// What is looked at in every store, whatever it is made of.
use rounds::span::Span;
use std::process::Abort;
use std::test::Fail;
use store::store::Store;

// What stands in a work area before it is lent.
pub const WORK: u64 = 9;

// The store has these spans, low and high of each slot, at the rounds that it is settled at.
pub fn spans_are<S: Store>(rt: &impl Abort, store: &S, spans: &[(u64, u64)]) -> Result<(), Fail> {
    assert_eq!(rt; usize::from(store.slots()), spans.len());
    for (slot, &(low, high)) in (0..store.slots()).zip(spans) {
        assert_eq!(rt; store.span(slot)?, Span { low, high });
    }
    Ok(())
}

// Settles in an area of 7,170 numbers: the first 7,168 are 0 afterwards, and the two behind them are kept.
pub fn settle<S: Store>(rt: &impl Abort, store: &mut S, rounds: u16) -> Result<(), Fail> {
    let mut work = [WORK; 7170];
    assert_eq!(rt; store.settle(rounds, &mut work)?, rounds);
    assert_eq!(rt; store.rounds(), rounds);
    assert!(rt; work.iter().take(7168).all(|number| *number == 0));
    assert!(rt; work.iter().skip(7168).all(|number| *number == WORK));
    Ok(())
}
