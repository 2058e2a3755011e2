// Which rows and depths are made, and what is said where none is.
use std::fmt::Display;
use std::process::Abort;
use std::test::Fail;
use wiring::depth::Depth;
use wiring::refusal::Refusal;
use wiring::row::Row;

#[test]
fn rows(rt: HostRuntime) -> Result<(), Fail> {
    let row = Row::new(0, 1, 2)?;
    assert!(rt; row.slots() == [0, 1, 2].as_slice());
    let far = Row::try_from([7, 1023, 65535].as_slice())?;
    assert!(rt; far.slots() == [7, 1023, 65535].as_slice());
    let refused = Err(Refusal::Unordered);
    assert_eq!(rt; Row::new(2, 1, 0), refused);
    assert_eq!(rt; Row::new(3, 3, 5), refused);
    assert_eq!(rt; Row::new(3, 5, 5), refused);
    assert_eq!(rt; Row::new(0, 2, 1), refused);
    assert_eq!(rt; Row::try_from([].as_slice()), refused);
    assert_eq!(rt; Row::try_from([1, 2].as_slice()), refused);
    assert_eq!(rt; Row::try_from([1, 2, 3, 4].as_slice()), refused);
    Ok(())
}

#[test]
fn depths(rt: HostRuntime) -> Result<(), Fail> {
    // every byte
    for bits in 0..=255u8 {
        let expected = match bits {
            2..=16 => Ok(bits),
            _ => Err(Refusal::Bits),
        };
        assert_eq!(rt; Depth::new(bits).map(|depth| depth.bits()), expected);
    }
    assert_eq!(rt; Depth::new(2)?.modulus(), 4);
    assert_eq!(rt; Depth::new(4)?.modulus(), 16);
    assert_eq!(rt; Depth::new(16)?.modulus(), 65536);
    Ok(())
}

#[test]
fn conversions(rt: HostRuntime) -> Result<(), Fail> {
    let row = Row::new(4, 5, 9)?;
    assert!(rt; <[u16; 3]>::from(row) == [4, 5, 9]);
    Ok(())
}

// As in the tests of braids: two crates of tests share no code.
fn reads(rt: &(impl Abort + AllocGlobal), why: &impl Display, expected: &str) -> Result<(), Fail> {
    let text = why.to_string(rt.alloc())?;
    assert_eq!(rt; text.as_str(), expected);
    Ok(())
}

#[test]
fn refusals_in_words(rt: HostRuntime) -> Result<(), Fail> {
    reads(
        &rt,
        &Refusal::Unordered,
        "slots that are not three in strictly rising order",
    )?;
    reads(&rt, &Refusal::Bits, "a depth that is not 2 to 16 bits")
}
