// pile: shows braids at work. A list of calls is run on a braid over a flat table, by the call whose
// contract is the braid's promise, and the spans of its slots are printed at rising numbers of rounds.
// Then a pile of three braids is wired, filled and settled.
#![tactic(auto)]

mod words;

use anyhow::Context;
use braid::braid::Braid;
use ledger::calls::{Call, Done};
use ledger::run::run_on_table;
use rounds::span::Span;
use store::flat::Flat;
use store::store::Store;
use wiring::depth::Depth;
use wiring::row::Row;
use words::Told;

// Three slots, of which the first two share two slots of the table; and calls that are declined: slots
// that make no row, a slot that the table does not have, a wire once there is weight, a work area that
// is too short.
const CALLS: [Call<'static>; 10] = [
    Call::Wire { slots: &[0, 1, 2] },
    Call::Wire { slots: &[1, 2, 3] },
    Call::Wire { slots: &[3, 4, 5] },
    Call::Wire { slots: &[2, 1, 0] },
    Call::Wire { slots: &[4, 5, 6] },
    Call::Add { slot: 0, units: 11 },
    Call::Add { slot: 1, units: 6 },
    Call::Add { slot: 2, units: 3 },
    Call::Wire { slots: &[0, 2, 4] },
    Call::Settle {
        rounds: 3,
        room: 100,
    },
];

fn show_spans<S: Store>(
    rt: &HostRuntime,
    pile: &mut S,
    rounds: u16,
    work: &mut [u64],
) -> anyhow::Result<()> {
    pile.settle(rounds, work).context("not settled")?;
    // by number, since a store is asked for one slot at a time
    for slot in 0..pile.slots() {
        let Span { low, high } = pile.span(slot).context("no span")?;
        println!(rt; "rounds {rounds}: slot {slot} holds {low} to {high}")?;
    }
    Ok(())
}

fn one_braid(rt: &HostRuntime, depth: Depth, work: &mut [u64]) -> anyhow::Result<()> {
    let mut table = [0; 6];
    let mut answers = [Ok(Done::Settled(0)); 10];
    let (mut pile, _) = run_on_table(&mut table, depth, &CALLS, work, &mut answers);
    for (call, answer) in CALLS.iter().zip(&answers) {
        rt.println(Told { call, answer })?;
    }
    for rounds in 0..4 {
        show_spans(rt, &mut pile, rounds, work)?;
    }
    Ok(())
}

// A braid with so many slots, each on three neighbours below.
// As the tests' own: a program and tests share no crate.
fn stacked<S: Store + Drop>(below: S, depth: Depth, slots: u16) -> anyhow::Result<Braid<S>> {
    let mut braid = Braid::new(below, depth);
    // the number is what the row is made of
    for i in 0..slots {
        let row = Row::new(i, i.saturating_add(1), i.saturating_add(2))?;
        braid.wire(row)?;
    }
    Ok(braid)
}

fn three_braids(rt: &HostRuntime, depth: Depth, work: &mut [u64]) -> anyhow::Result<()> {
    let mut table = [0; 9];
    let bottom = stacked(Flat::new(&mut table), depth, 7)?;
    let middle = stacked(bottom, depth, 5)?;
    let mut top: Braid<Braid<Braid<Flat>>> = stacked(middle, depth, 3)?;
    for (slot, units) in [(0, 1000), (1, 70), (2, 3)] {
        top.add(slot, units).context("not added")?;
    }
    println!(rt; "a pile of three: 1000, 70 and 3 units were added")?;
    for rounds in [0, 1, 2, 12] {
        show_spans(rt, &mut top, rounds, work)?;
    }
    Ok(())
}

fn run(rt: &HostRuntime) -> anyhow::Result<()> {
    let depth = Depth::new(2)?;
    let mut work = [0; 7168];
    one_braid(rt, depth, &mut work)?;
    three_braids(rt, depth, &mut work)
}

fn main(rt: HostRuntime) -> anyhow::Result<()> {
    run(&rt)
}
