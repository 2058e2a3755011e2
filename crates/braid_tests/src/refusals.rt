// What stores decline, in which order, and that it leaves everything as it was.
use crate::watching::{WORK, settle, spans_are};
use braid::braid::Braid;
use braid::refusal::Refusal as BraidRefusal;
use ledger::calls::Denial;
use std::fmt::Display;
use std::process::Abort;
use std::test::Fail;
use store::flat::Flat;
use store::refusal::Refusal;
use store::store::{CEILING, Store};
use wiring::depth::Depth;
use wiring::refusal::Refusal as RowRefusal;
use wiring::row::Row;

fn no_settling<S: Store>(
    rt: &impl Abort,
    store: &mut S,
    rounds: u16,
    work: &mut [u64],
    why: Refusal,
) {
    assert_eq!(rt; store.settle(rounds, work), Err(why));
    assert!(rt; work.iter().all(|number| *number == WORK));
}

// Any store of three slots that nothing was added to.
fn declines<S: Store>(rt: &impl Abort, store: &mut S) -> Result<(), Fail> {
    for _ in 0..256 {
        store.add(0, 4294967295)?;
    }
    // 256 units are left to the ceiling
    assert_eq!(rt; store.add(2, 257), Err(Refusal::Ceiling));
    assert_eq!(rt; store.add(2, 256)?, CEILING);
    settle(rt, store, 2)?;
    assert_eq!(rt; store.add(0, 1), Err(Refusal::Ceiling));
    assert_eq!(rt; store.add(3, 1), Err(Refusal::NoSlot));
    assert_eq!(rt; store.span(3), Err(Refusal::NoSlot));
    no_settling(rt, store, 2049, &mut [WORK; 7168], Refusal::Rounds);
    no_settling(rt, store, 2049, &mut [WORK; 7167], Refusal::Rounds);
    no_settling(rt, store, 2048, &mut [WORK; 7167], Refusal::Work);
    no_settling(rt, store, 0, &mut [], Refusal::Work);
    assert_eq!(rt; store.weight(), CEILING);
    assert_eq!(rt; store.rounds(), 2);
    spans_are(
        rt,
        store,
        &[(1099511627520, 1099511627520), (0, 0), (256, 256)],
    )?;
    assert_eq!(rt; store.add(1, 0)?, CEILING);
    Ok(())
}

#[test]
fn flat_stores(rt: HostRuntime) -> Result<(), Fail> {
    let mut table = [7; 3];
    declines(&rt, &mut Flat::new(&mut table))
}

#[test]
fn braids(rt: HostRuntime) -> Result<(), Fail> {
    let mut table = [7; 3];
    let mut braid = Braid::new(Flat::new(&mut table), Depth::new(16)?);
    for _ in 0..3 {
        braid.wire(Row::new(0, 1, 2)?)?;
    }
    declines(&rt, &mut braid)
}

#[test]
fn wires(rt: HostRuntime) -> Result<(), Fail> {
    let inside = Row::new(0, 1, 2)?;
    let outside = Row::new(1, 2, 3)?;
    let no_slot = BraidRefusal::Store(Refusal::NoSlot);
    let mut table = [7; 3];
    let mut braid = Braid::new(Flat::new(&mut table), Depth::new(2)?);
    assert_eq!(rt; braid.wire(outside), Err(no_slot));
    for slot in 0..1024u16 {
        assert_eq!(rt; braid.wire(inside), Ok(slot));
    }
    assert_eq!(rt; braid.wire(inside), Err(BraidRefusal::Full));
    assert_eq!(rt; braid.wire(outside), Err(BraidRefusal::Full));
    braid.add(1023, 1)?;
    assert_eq!(rt; braid.wire(inside), Err(BraidRefusal::Weighted));
    assert_eq!(rt; braid.wire(outside), Err(BraidRefusal::Weighted));
    assert_eq!(rt; braid.slots(), 1024);
    assert_eq!(rt; braid.weight(), 1);
    Ok(())
}

// The store below has weight, and the braid over it has none.
#[test]
fn wires_over_weight(rt: HostRuntime) -> Result<(), Fail> {
    let mut table = [7; 3];
    let mut flat = Flat::new(&mut table);
    flat.add(2, 1)?;
    let mut braid = Braid::new(flat, Depth::new(2)?);
    assert_eq!(rt; braid.weight(), 0);
    assert_eq!(rt; braid.wire(Row::new(0, 1, 2)?), Err(BraidRefusal::Weighted));
    assert_eq!(rt; braid.wire(Row::new(1, 2, 3)?), Err(BraidRefusal::Weighted));
    assert_eq!(rt; braid.slots(), 0);
    Ok(())
}

#[test]
fn numbers(rt: HostRuntime) {
    assert_eq!(rt; Refusal::NoSlot.number(), 1);
    assert_eq!(rt; Refusal::Ceiling.number(), 2);
    assert_eq!(rt; Refusal::Rounds.number(), 3);
    assert_eq!(rt; Refusal::Work.number(), 4);
}

// As in the tests of rows: two crates of tests share no code.
fn reads(rt: &(impl Abort + AllocGlobal), why: &impl Display, expected: &str) -> Result<(), Fail> {
    let text = why.to_string(rt.alloc())?;
    assert_eq!(rt; text.as_str(), expected);
    Ok(())
}

// A refusal that carries another one reads as that one does.
#[test]
fn words(rt: HostRuntime) -> Result<(), Fail> {
    let no_slot = "a slot that is not there";
    let weighted = "a new slot where there is weight already";
    reads(&rt, &Refusal::NoSlot, no_slot)?;
    reads(&rt, &Refusal::Ceiling, "a weight above the ceiling of 2^40")?;
    reads(&rt, &Refusal::Rounds, "more than 2,048 rounds")?;
    reads(
        &rt,
        &Refusal::Work,
        "a work area of fewer than 7,168 numbers",
    )?;
    reads(&rt, &BraidRefusal::Weighted, weighted)?;
    reads(
        &rt,
        &BraidRefusal::Full,
        "a new slot where there are 1,024 already",
    )?;
    reads(&rt, &BraidRefusal::Store(Refusal::NoSlot), no_slot)?;
    reads(
        &rt,
        &Denial::Row(RowRefusal::Bits),
        "a depth that is not 2 to 16 bits",
    )?;
    reads(&rt, &Denial::Braid(BraidRefusal::Weighted), weighted)?;
    reads(&rt, &Denial::Store(Refusal::NoSlot), no_slot)
}
