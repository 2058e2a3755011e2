// Runs a list of calls on a braid.
ghost use Rattle.std.specs.Prelude.{◌≡◌, min, map, length, take, drop};
ghost use Rattle.store.specs.FlatMeaning.{flat_meaning};
ghost use Rattle.store.specs.Meaning.{Fresh};
ghost use Rattle.ledger.specs.Calls.{asked, told};
ghost use Rattle.ledger.specs.Promise.{Serves, Promise};

use crate::calls::{Answer, Call, Done};
use braid::braid::Braid;
use store::flat::Flat;
use store::store::Store;
use wiring::depth::Depth;
use wiring::row::Row;

// Does one call; slots that make no row are declined before the braid sees them.
fn serve<S: Store>(braid: &mut Braid<S>, call: &Call, work: &mut [u64]) -> Answer
    ensures { Serves S.Store.meaning braid.old (asked (length work.old) call.now) (told result) braid.new work.old work.new }
{
    // by the cases of a list of calls, which is data that a caller lends
    match *call {
        Call::Wire { slots } => {
            let row = Row::try_from(slots)?;
            Ok(Done::Wired(braid.wire(row)?))
        }
        Call::Add { slot, units } => Ok(Done::Added(braid.add(slot, units)?)),
        Call::Settle { rounds, room } => {
            let many = work.len().min(room);
            Ok(Done::Settled(braid.settle(rounds, &mut work[..many])?))
        }
    }
}

// Makes a braid over the store, does the calls in their order, and hands the braid back. The answers
// go to the lent places, as far as these reach: so many calls are done, which is told beside the
// braid. The store is given up to the braid; its contract is owed where the store is fresh.
pub fn run<S: Store>(
    below: S,
    depth: Depth,
    calls: &[Call],
    work: &mut [u64],
    answers: &mut [Answer],
) -> (Braid<S>, usize)
    ensures count { result.1 ≡ min (length calls.now) (length answers.old) }
    ensures promise { Fresh S.Store.meaning below → Promise S.Store.meaning depth (S.Store.meaning.slots below) (map (asked (length work.old)) (take result.1 calls.now)) (map told (take result.1 answers.new)) result.0 work.old work.new }
    ensures kept { drop result.1 answers.new ≡ drop result.1 answers.old }
{
    let mut braid = Braid::new(below, depth);
    let many = calls.len().min(answers.len());
    // by index: of a loop over `answers.iter_mut().zip(calls)` no proof knows what it wrote
    for (i, call) in calls[..many].iter().enumerate() {
        answers[i] = serve(&mut braid, call, work);
    }
    (braid, many)
}

// The same over a flat table, which is fresh however it was: nothing is left to ask for.
pub fn run_on_table<'a>(
    table: &'a mut [u64],
    depth: Depth,
    calls: &[Call],
    work: &mut [u64],
    answers: &mut [Answer],
) -> (Braid<Flat<'a>>, usize)
    ensures count { result.1 ≡ min (length calls.now) (length answers.old) }
    ensures promise { Promise flat_meaning depth (min (length table.old) 1024) (map (asked (length work.old)) (take result.1 calls.now)) (map told (take result.1 answers.new)) result.0 work.old work.new }
    ensures kept { drop result.1 answers.new ≡ drop result.1 answers.old }
{
    run(Flat::new(table), depth, calls, work, answers)
}
