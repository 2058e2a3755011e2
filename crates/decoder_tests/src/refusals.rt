// What is refused, and that a refusal leaves everything as it was.
use decoder::claims::Claims;
use decoder::decode;
use decoder::refusal::Refusal;
use decoder::spans::Spans;
use decoder::unfit::Unfit;
use std::process::Abort;
use std::test::Fail;
use wiring::row::Row;

const CEILING: u64 = 1 << 40;

fn all_nine(rt: &impl Abort, numbers: &[u64]) {
    assert!(rt; numbers.iter().all(|number| *number == 9));
}

// A decoding in this area is refused, and touches nothing.
fn refused(rt: &impl Abort, rounds: u16, work: &mut [u64], why: Refusal) -> Result<(), Fail> {
    let mut claims = Claims::new();
    claims.push(Row::new(0, 1, 2)?, 1)?;
    let mut lows = [9; 1024];
    let mut highs = [9; 1024];
    assert_eq!(rt;
        decode(&claims, &Spans::new(), rounds, work, &mut lows, &mut highs),
        Err(why)
    );
    all_nine(rt, work);
    all_nine(rt, &lows);
    all_nine(rt, &highs);
    Ok(())
}

#[test]
fn decodings(rt: HostRuntime) -> Result<(), Fail> {
    refused(&rt, 2049, &mut [9; 7168], Refusal::Rounds)?;
    refused(&rt, 2049, &mut [9; 7167], Refusal::Rounds)?;
    refused(&rt, 2048, &mut [9; 7167], Refusal::Area)?;
    refused(&rt, 0, &mut [], Refusal::Area)
}

#[test]
fn claimants(rt: HostRuntime) -> Result<(), Fail> {
    let mut claims = Claims::new();
    let row = Row::new(0, 1, 2)?;
    assert_eq!(rt; claims.push(row, CEILING + 1), Err(Unfit::Large));
    assert_eq!(rt; claims.push(Row::new(0, 1, 1024)?, 0), Err(Unfit::Slot));
    assert_eq!(rt; claims.push(Row::new(0, 1, 1023)?, CEILING), Ok(0));
    for number in 1..1024u16 {
        assert_eq!(rt; claims.push_absent(), Ok(number));
    }
    assert_eq!(rt; claims.push(row, CEILING + 1), Err(Unfit::Full));
    assert_eq!(rt; claims.push_absent(), Err(Unfit::Full));
    Ok(())
}

#[test]
fn spans(rt: HostRuntime) {
    let mut spans = Spans::new();
    assert_eq!(rt; spans.push(CEILING + 1, 0), Err(Unfit::Large));
    assert_eq!(rt; spans.push(0, CEILING + 1), Err(Unfit::Large));
    for slot in 0..1024u16 {
        assert_eq!(rt; spans.push(CEILING, CEILING), Ok(slot));
    }
    assert_eq!(rt; spans.push(0, 0), Err(Unfit::Full));
}
