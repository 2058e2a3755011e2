// One slot of depth 2 on the row 0, 1, 2, over a table of three.
use crate::watching::{settle, spans_are};
use braid::braid::Braid;
use std::process::Abort;
use std::test::Fail;
use store::flat::Flat;
use store::store::Store;
use wiring::depth::Depth;
use wiring::row::Row;

// n units in a fresh braid over the table, and what is known of them at each number of rounds: rounds, low, high.
fn expect(
    rt: &impl Abort,
    table: &mut [u64],
    n: u32,
    known: &[(u16, u64, u64)],
) -> Result<(), Fail> {
    let mut braid = Braid::new(Flat::new(table), Depth::new(2)?);
    assert_eq!(rt; braid.wire(Row::new(0, 1, 2)?)?, 0);
    assert_eq!(rt; braid.add(0, n)?, u64::from(n));
    for &(rounds, low, high) in known {
        settle(rt, &mut braid, rounds)?;
        spans_are(rt, &braid, &[(low, high)])?;
    }
    // after an addition, of nothing too, it is settled at no rounds again
    assert_eq!(rt; braid.add(0, 0)?, u64::from(n));
    assert_eq!(rt; braid.rounds(), 0);
    Ok(())
}

// The same, over a table of its own, into each slot of which so much has gone down.
fn carries(rt: &impl Abort, n: u32, known: &[(u16, u64, u64)], carried: u64) -> Result<(), Fail> {
    let mut table = [7; 3];
    expect(rt, &mut table, n, known)?;
    assert!(rt; table == [carried; 3]);
    Ok(())
}

#[test]
fn three_stay(rt: HostRuntime) -> Result<(), Fail> {
    carries(&rt, 3, &[(0, 3, 3), (1, 3, 3), (2, 3, 3)], 0)
}

#[test]
fn four_run_over(rt: HostRuntime) -> Result<(), Fail> {
    carries(&rt, 4, &[(0, 4, 4), (1, 4, 4), (2, 4, 4)], 1)
}

#[test]
fn eleven_run_over_twice(rt: HostRuntime) -> Result<(), Fail> {
    let known = [(0, 7, 11), (1, 7, 11), (2, 11, 11), (2048, 11, 11)];
    carries(&rt, 11, &known, 2)
}
