// A pile of three: a braid over a braid over a braid over a table, all of it held by value.
use crate::watching::{settle, spans_are};
use braid::braid::Braid;
use std::process::Abort;
use std::test::Fail;
use store::flat::Flat;
use store::store::Store;
use wiring::depth::Depth;
use wiring::row::Row;

// A braid of depth 2 whose slot i has the row i, i + 1, i + 2.
fn stairs<S: Store + Drop>(rt: &impl Abort, below: S, many: u16) -> Result<Braid<S>, Fail> {
    let mut braid = Braid::new(below, Depth::new(2)?);
    // the number is what the row is made of
    for i in 0..many {
        let row = Row::new(i, i.saturating_add(1), i.saturating_add(2))?;
        assert_eq!(rt; braid.wire(row)?, i);
    }
    Ok(braid)
}

// What is known of its four slots at each number of rounds: low, high.
const KNOWN: [(u16, &[(u64, u64)]); 4] = [
    (3, &[(100, 100), (57, 57), (37, 37), (3, 3)]),
    (2, &[(100, 100), (57, 105), (37, 37), (3, 3)]),
    (1, &[(4, 100), (5, 105), (5, 37), (3, 3)]),
    (0, &[(4, 197), (5, 197), (5, 197), (3, 3)]),
];

fn fill(rt: &impl Abort, table: &mut [u64]) -> Result<(), Fail> {
    let mut pile: Braid<Braid<Braid<Flat<'_>>>> = stairs(
        rt,
        stairs(rt, stairs(rt, Flat::new(table), 7)?, 5)?,
        3,
    )?;
    assert_eq!(rt; pile.wire(Row::new(0, 2, 4)?)?, 3);
    for (slot, n, weight) in [
        (0, 90, 90),
        (1, 57, 147),
        (2, 37, 184),
        (0, 10, 194),
        (3, 3, 197),
    ] {
        assert_eq!(rt; pile.add(slot, n)?, weight);
    }
    for (rounds, spans) in KNOWN {
        settle(rt, &mut pile, rounds)?;
        spans_are(rt, &pile, spans)?;
    }
    Ok(())
}

#[test]
fn three_braids(rt: HostRuntime) -> Result<(), Fail> {
    let mut table = [7; 9];
    fill(&rt, &mut table)?;
    assert!(rt; table == [1, 4, 10, 15, 16, 11, 5, 1, 0]);
    Ok(())
}
