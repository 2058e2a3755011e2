// Small cases, worked by hand, over flows with floor 0 and slots whose totals are known exactly.
use decoder::claims::Claims;
use decoder::decode;
use decoder::spans::Spans;
use std::process::Abort;
use std::test::Fail;
use wiring::row::Row;

// What stood in the tables and in the area before, so that what is kept and what is written can be told apart.
const TABLE: u64 = 55;

const WORK: u64 = 99;

// Flows on these rows.
fn flows(rows: &[[u16; 3]]) -> Result<Claims, Fail> {
    let mut claims = Claims::new();
    for slots in rows {
        claims.push(Row::try_from(slots.as_slice())?, 0)?;
    }
    Ok(claims)
}

fn closed(totals: &[u64]) -> Result<Spans, Fail> {
    let mut spans = Spans::new();
    for total in totals {
        spans.push(*total, *total)?;
    }
    Ok(spans)
}

// A table has these answers, and behind them what it had.
fn table_is(rt: &impl Abort, table: &[u64], answers: &[u64]) {
    assert!(rt;
        table
            .iter()
            .zip(answers)
            .all(|(number, answer)| number == answer)
    );
    assert!(rt;
        table
            .iter()
            .skip(answers.len())
            .all(|number| *number == TABLE)
    );
}

fn area_is_clear(rt: &impl Abort, work: &[u64]) {
    assert!(rt; work.iter().take(7168).all(|number| *number == 0));
    assert!(rt; work.iter().skip(7168).all(|number| *number == WORK));
}

// Claims and spans stand side by side, as `decode` is lent them.
// Decodes, and holds every number of the tables and of the area against what it should be.
fn expect(
    rt: &impl Abort,
    claims: &Claims,
    spans: &Spans,
    rounds: u16,
    low: &[u64],
    high: &[u64],
) -> Result<(), Fail> {
    let mut work = [WORK; 7170];
    let mut lows = [TABLE; 1024];
    let mut highs = [TABLE; 1024];
    assert_eq!(rt;
        decode(claims, spans, rounds, &mut work, &mut lows, &mut highs)?,
        rounds
    );
    table_is(rt, &lows, low);
    table_is(rt, &highs, high);
    area_is_clear(rt, &work);
    Ok(())
}

// 7 on slots 0, 1, 2 and 5 on slots 2, 3, 4.
#[test]
fn two_that_share_a_slot(rt: HostRuntime) -> Result<(), Fail> {
    let claims = flows(&[[0, 1, 2], [2, 3, 4]])?;
    let spans = closed(&[7, 7, 12, 5, 5])?;
    expect(&rt, &claims, &spans, 0, &[0, 0], &[])?;
    expect(&rt, &claims, &spans, 1, &[0, 0], &[7, 5])?;
    expect(&rt, &claims, &spans, 2, &[7, 5], &[7, 5])?;
    expect(&rt, &claims, &spans, 2048, &[7, 5], &[7, 5])
}

// 7 and 5, both on slots 0, 1, 2.
#[test]
fn two_on_one_row(rt: HostRuntime) -> Result<(), Fail> {
    let claims = flows(&[[0, 1, 2], [0, 1, 2]])?;
    let spans = closed(&[12, 12, 12])?;
    for rounds in [1, 2, 3, 4, 1025, 2048] {
        expect(&rt, &claims, &spans, rounds, &[0, 0], &[12, 12])?;
    }
    Ok(())
}

// 4, 2 and 1 on slots 0, 1, 2 and 1, 2, 3 and 0, 2, 3.
#[test]
fn three_that_share_two(rt: HostRuntime) -> Result<(), Fail> {
    let claims = flows(&[[0, 1, 2], [1, 2, 3], [0, 2, 3]])?;
    let spans = closed(&[5, 6, 7, 3])?;
    expect(&rt, &claims, &spans, 1, &[0, 0, 0], &[5, 3, 3])?;
    expect(&rt, &claims, &spans, 2, &[3, 1, 0], &[5, 3, 3])
}

// Totals that no amounts have, where it shows that a slot's own reply stays out of the message to it:
// were it counted, the first flow would have the high 0.
#[test]
fn own_replies_do_not_count(rt: HostRuntime) -> Result<(), Fail> {
    let claims = flows(&[[0, 2, 3], [1, 2, 3], [0, 1, 3]])?;
    let spans = closed(&[4, 0, 2, 3])?;
    expect(&rt, &claims, &spans, 3, &[4, 1, 2], &[1, 0, 0])
}

// Claimants that take no part between others, floors of 1 and 0, and spans that stay open.
#[test]
fn floors_and_absent_claimants(rt: HostRuntime) -> Result<(), Fail> {
    let mut claims = Claims::new();
    claims.push_absent()?;
    claims.push(Row::new(0, 1, 2)?, 1)?;
    claims.push_absent()?;
    claims.push(Row::new(0, 1, 2)?, 0)?;
    let mut spans = Spans::new();
    spans.push(5, 9)?;
    spans.push(4, 8)?;
    spans.push(6, 7)?;
    expect(&rt, &claims, &spans, 0, &[TABLE, 1, TABLE, 0], &[])?;
    expect(
        &rt,
        &claims,
        &spans,
        1,
        &[TABLE, 1, TABLE, 0],
        &[TABLE, 7, TABLE, 6],
    )?;
    expect(
        &rt,
        &claims,
        &spans,
        2,
        &[TABLE, 1, TABLE, 0],
        &[TABLE, 7, TABLE, 6],
    )
}

#[test]
fn nobody_at_all(rt: HostRuntime) -> Result<(), Fail> {
    expect(&rt, &Claims::new(), &Spans::new(), 3, &[], &[])
}
