use jop_base::{Bytes, Copied, Text, are_decimal_digits, decimal_text, is_time, read_decimal};
use jop_outside::Faults;
use std::alloc::{AllocError, Global};
use std::test::Fail;

pub fn bytes_of(alloc: Global, text: &[u8]) -> Result<Bytes, AllocError> {
    let mut bytes = Bytes::new(alloc);
    bytes.append(text)?;
    Ok(bytes)
}

#[test]
fn bytes_grow_and_are_copied(rt: HostRuntime) -> Result<(), Fail> {
    let mut bytes = Bytes::new(rt.alloc());
    assert!(rt; bytes.is_empty());
    bytes.push(b'a')?;
    bytes.append(b"bc")?;
    let copy = bytes.copy(rt.alloc())?;
    assert_eq!(rt; copy.as_slice(), b"abc".as_slice());
    assert!(rt; copy == bytes);
    Ok(())
}

fn grown(alloc: Global) -> Result<Text, AllocError> {
    let mut text = Text::of(alloc, "a")?;
    text.push('é')?;
    text.append("c")?;
    Ok(text)
}

fn is_copied(alloc: Global, text: &Text, wanted: &str) -> Result<bool, AllocError> {
    Ok(text.copy(alloc)?.as_str() == wanted)
}

fn is_read_back(alloc: Global, text: &Text) -> Result<bool, AllocError> {
    match Text::read(alloc, text.as_slice())? {
        Some(read) => Ok(read == *text),
        None => Ok(false),
    }
}

fn is_text(alloc: Global, bytes: &[u8]) -> Result<bool, AllocError> {
    Ok(Text::read(alloc, bytes)?.is_some())
}

#[test]
fn texts_grow_and_are_read(rt: HostRuntime) -> Result<(), Fail> {
    let text = grown(rt.alloc())?;
    assert!(rt; is_copied(rt.alloc(), &text, "aéc")?);
    assert!(rt; !is_text(rt.alloc(), &[0xff])?);
    assert!(rt; is_read_back(rt.alloc(), &text)?);
    assert_eq!(rt; text.into_bytes().len(), 4);
    Ok(())
}

#[test]
fn an_option_is_copied(rt: HostRuntime) -> Result<(), Fail> {
    let alloc = rt.alloc();
    let some = Some(Text::of(alloc, "a")?);
    let copy = some.copy(alloc)?.ok_or("a text")?;
    assert_eq!(rt; copy.as_str(), "a");
    Ok(())
}

#[test]
fn times_and_faults_are_counted(rt: HostRuntime) -> Result<(), Fail> {
    let mut faults = Faults::new();
    faults.rise();
    assert_eq!(rt; faults.count(), 1);
    assert!(rt; is_time(253_402_300_799_999));
    assert!(rt; !is_time(253_402_300_800_000));
    Ok(())
}

const DECIMALS: [(&str, Option<u64>); 6] = [
    ("0", Some(0)),
    ("007", Some(7)),
    ("18446744073709551615", Some(u64::MAX)),
    ("18446744073709551616", None),
    ("", None),
    ("+1", None),
];

#[test]
fn decimal_digits_are_read(rt: HostRuntime) {
    for (text, number) in DECIMALS {
        assert_eq!(rt; read_decimal(text.as_bytes()), number);
    }
    assert!(rt; are_decimal_digits(b"007"));
}

#[test]
fn a_number_is_written_in_decimal(rt: HostRuntime) -> Result<(), Fail> {
    assert_eq!(rt;
        decimal_text(rt.alloc(), u64::MAX)?.as_str(),
        "18446744073709551615"
    );
    Ok(())
}
