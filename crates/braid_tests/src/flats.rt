// Flat stores over tables that are longer than 1,024 numbers, and shorter.
use crate::watching::{settle, spans_are};
use rounds::span::Span;
use std::process::Abort;
use std::test::Fail;
use store::flat::Flat;
use store::refusal::Refusal;
use store::store::Store;

const BEFORE: u64 = 9;

// Of 1,030 numbers the last slot has these units and the others none, and the six behind are as they were.
fn holds(rt: &impl Abort, table: &[u64; 1030], last: u64) {
    assert!(rt; table[..1023].iter().all(|number| *number == 0));
    assert_eq!(rt; table[1023], last);
    assert!(rt; table[1024..] == [BEFORE; 6]);
}

fn make(rt: &impl Abort, table: &mut [u64]) {
    let flat = Flat::new(table);
    assert_eq!(rt; flat.slots(), 1024);
    assert_eq!(rt; flat.weight(), 0);
    assert_eq!(rt; flat.rounds(), 0);
}

fn add(rt: &impl Abort, table: &mut [u64], rounds: u16) -> Result<(), Fail> {
    let mut flat = Flat::new(table);
    assert_eq!(rt; flat.add(1023, 5)?, 5);
    assert_eq!(rt; flat.add(1024, 5), Err(Refusal::NoSlot));
    assert_eq!(rt; flat.add(1029, 5), Err(Refusal::NoSlot));
    settle(rt, &mut flat, rounds)?;
    assert_eq!(rt; flat.span(1023)?, Span::closed(5));
    assert_eq!(rt; flat.weight(), 5);
    Ok(())
}

#[test]
fn six_behind_the_slots(rt: HostRuntime) -> Result<(), Fail> {
    let mut table = [BEFORE; 1030];
    make(&rt, &mut table);
    holds(&rt, &table, 0);
    add(&rt, &mut table, 0)?;
    holds(&rt, &table, 5);
    add(&rt, &mut table, 2048)?;
    holds(&rt, &table, 5);
    Ok(())
}

#[test]
fn short_tables(rt: HostRuntime) -> Result<(), Fail> {
    assert_eq!(rt; Flat::new(&mut []).slots(), 0);
    let mut table = [BEFORE; 2];
    let mut flat = Flat::new(&mut table);
    assert_eq!(rt; flat.add(1, 4294967295)?, 4294967295);
    assert_eq!(rt; flat.add(0, 1)?, 4294967296);
    spans_are(&rt, &flat, &[(1, 1), (4294967295, 4294967295)])
}
