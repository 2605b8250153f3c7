use jed_format::{Jed, write_jed};
use jed_sealing::{SealErr, seal_bytes, seal_text};
use jop_base::{Bytes, Id, Text};
use jop_outside::MemEntropy;
use std::alloc::Global;
use std::test::*;

/// A source of so many bytes that count up.
pub(crate) fn counting(alloc: Global, len: u8) -> Result<MemEntropy, Fail> {
    let mut bytes = Vec::new(alloc);
    for n in 0..len {
        bytes.push(n)?;
    }
    Ok(MemEntropy::new(alloc, Bytes::from_vec(bytes)))
}

pub(crate) fn key_id() -> Result<Id, Fail> {
    Ok(Id::read(b"11111111111111111111111111111111").ok_or("no id")?)
}

/// The bytes of a sealed text.
fn written(alloc: Global, jed: &Jed) -> Result<Vec<u8>, Fail> {
    if !jed.is_brief() {
        return Err("too long")?;
    }
    Ok(write_jed(alloc, jed)?.into_vec())
}

/// A text, sealed by so many bytes that count up.
fn sealed(alloc: Global, text: &Text, len: u8) -> Result<Vec<u8>, Fail> {
    let mut entropy = counting(alloc, len)?;
    let jed = seal_text(alloc, &key_id()?, b"digits", text, &mut entropy)?;
    written(alloc, &jed)
}

/// A blob, sealed by so many bytes that count up.
fn sealed_blob(alloc: Global, blob: &Bytes, len: u8) -> Result<Vec<u8>, Fail> {
    let mut entropy = counting(alloc, len)?;
    let jed = seal_bytes(alloc, &key_id()?, b"digits", blob, &mut entropy)?;
    written(alloc, &jed)
}

/// 4,999 `x`, and a letter of two units.
fn long_text(alloc: Global) -> Result<Text, Fail> {
    let mut text = Text::new(alloc);
    for _ in 0..4_999 {
        text.append("x")?;
    }
    text.append("\u{1f600}")?;
    Ok(text)
}

#[test]
fn a_text_is_sealed_in_pieces_of_5_000_units(rt: HostRuntime) -> Result<(), Fail> {
    let text = long_text(rt.alloc())?;
    let bytes = sealed(rt.alloc(), &text, 48)?;
    assert_eq!(rt; bytes.len(), 7_033);
    assert!(rt; bytes.get(45..51) == Some(b"001aa4".as_slice()));
    assert!(rt; bytes.get(6_871..6_877) == Some(b"00009c".as_slice()));
    Ok(())
}

#[test]
fn an_empty_text_and_an_empty_blob_are_headers_alone(rt: HostRuntime) -> Result<(), Fail> {
    let text = sealed(rt.alloc(), &Text::new(rt.alloc()), 0)?;
    let blob = sealed_blob(rt.alloc(), &Bytes::new(rt.alloc()), 0)?;
    assert!(rt; text.as_slice() == b"JED010000220511111111111111111111111111111111".as_slice());
    assert!(rt; blob.as_slice() == text.as_slice());
    Ok(())
}

/// The lengths in bytes of blobs, and of what they are sealed to: a header of 45 bytes, 6,822 for each part of 3,750
/// with its length, and what a shorter last part takes.
const BLOBS: [(usize, usize); 3] = [(3_750, 6_867), (3_751, 7_033), (7_500, 13_689)];

#[test]
fn a_blob_is_sealed_in_parts_of_3_750_bytes(rt: HostRuntime) -> Result<(), Fail> {
    for (len, want) in BLOBS {
        let blob = Bytes::from_vec(vec![in rt.alloc(); 7u8; len]?);
        assert_eq!(rt; sealed_blob(rt.alloc(), &blob, 48)?.len(), want);
    }
    Ok(())
}

/// Whether a text of two pieces isn't sealed where the source has bytes for one.
fn fails(alloc: Global) -> Result<bool, Fail> {
    let text = long_text(alloc)?;
    let mut entropy = counting(alloc, 47)?;
    let refused = seal_text(alloc, &key_id()?, b"digits", &text, &mut entropy).err();
    Ok(refused == Some(SealErr::EntropyFault) && entropy.faults() == 1)
}

#[test]
fn a_source_that_fails_at_the_second_piece_is_told(rt: HostRuntime) -> Result<(), Fail> {
    assert!(rt; fails(rt.alloc())?);
    Ok(())
}
