use crate::escapes::is_unescaped;
use jed_format::{JedErr, read_chunk, read_jed, units_text};
use std::alloc::Global;
use std::test::*;

const HEADER: &[u8; 45] = b"JED010000220511111111111111111111111111111111";

/// What a text of this body is refused for.
fn refusal(alloc: Global, body: &[u8]) -> Result<Option<JedErr>, Fail> {
    let mut text = HEADER.to_vec(alloc)?;
    text.extend_from_slice(body)?;
    Ok(read_jed(alloc, &text).err())
}

/// So many times the same letters.
fn repeated(alloc: Global, letters: &[u8], times: u32) -> Result<Vec<u8>, Fail> {
    let mut text = Vec::new(alloc);
    for _ in 0..times {
        text.extend_from_slice(letters)?;
    }
    Ok(text)
}

#[test]
fn a_header_that_is_cut_is_refused_at_its_field(rt: HostRuntime) -> Result<(), Fail> {
    for len in 0..45 {
        let at = match len {
            0..5 => 0,
            5..11 => 5,
            11..13 => 11,
            _ => 13,
        };
        let refused = read_jed(rt.alloc(), &HEADER[..len]).err();
        assert_eq!(rt; refused, Some(JedErr::NotJed { at }));
    }
    Ok(())
}

const WRONG_FIELDS: [(&[u8], JedErr); 10] = [
    (b"JED02", JedErr::NotJed { at: 0 }),
    (
        b"jed010000220511111111111111111111111111111111",
        JedErr::NotJed { at: 0 },
    ),
    (
        b"JED010000340511111111111111111111111111111111",
        JedErr::NotJed { at: 5 },
    ),
    (
        b"JED01-000220511111111111111111111111111111111",
        JedErr::NotJed { at: 5 },
    ),
    (
        b"JED01000022g511111111111111111111111111111111",
        JedErr::NotJed { at: 11 },
    ),
    (
        b"JED01000022051111111111111111111111111111111A",
        JedErr::NotJed { at: 13 },
    ),
    (
        b"JED010000220611111111111111111111111111111111",
        JedErr::UnsupportedMethod(6),
    ),
    (
        b"JED010000220011111111111111111111111111111111",
        JedErr::UnsupportedMethod(0),
    ),
    (
        b"JED0100002208111111111111111111111111111111110",
        JedErr::UnsupportedMethod(8),
    ),
    (
        b"JED01000022fF11111111111111111111111111111111",
        JedErr::UnsupportedMethod(255),
    ),
];

#[test]
fn the_first_wrong_field_is_told(rt: HostRuntime) -> Result<(), Fail> {
    for (text, want) in WRONG_FIELDS {
        assert_eq!(rt; read_jed(rt.alloc(), text).err(), Some(want));
    }
    Ok(())
}

const LYING_LENGTHS: [&[u8]; 11] = [
    b"0",
    b"00000",
    b"000000",
    b"000001",
    b"000002{}",
    b"000003{}",
    b"ffffff",
    b"FFFFFF{}",
    b"00000g{}",
    b"+00002{}",
    b"0x0002{}",
];

#[test]
fn lengths_that_lie_are_refused(rt: HostRuntime) -> Result<(), Fail> {
    for body in LYING_LENGTHS {
        assert_eq!(rt; refusal(rt.alloc(), body)?, Some(JedErr::BadChunk { n: 1 }));
    }
    Ok(())
}

#[test]
fn many_empty_chunks_are_refused_at_the_first(rt: HostRuntime) -> Result<(), Fail> {
    let body = repeated(rt.alloc(), b"000000", 65_536)?;
    assert_eq!(rt;
        refusal(rt.alloc(), &body)?,
        Some(JedErr::BadChunk { n: 1 })
    );
    Ok(())
}

const NESTED: [&[u8]; 9] = [
    b"[",
    b"{\"iv\":",
    b"{\"iv\":\"",
    b"[1e400,",
    b"\"",
    b"\\",
    b"9",
    b" ",
    b"\xff",
];

#[test]
fn nested_and_huge_objects_are_refused(rt: HostRuntime) -> Result<(), Fail> {
    for letters in NESTED {
        let text = repeated(rt.alloc(), letters, 500_000)?;
        let refused = read_chunk(rt.alloc(), &text, 7).err();
        assert_eq!(rt; refused, Some(JedErr::BadChunk { n: 7 }));
    }
    Ok(())
}

/// Whether the letters, so many times, are no escapes.
fn stays(alloc: Global, letters: &str) -> Result<bool, Fail> {
    let text = repeated(alloc, letters.as_bytes(), 10_000)?;
    is_unescaped(alloc, &text, &text)
}

#[test]
fn what_is_cut_short_stays(rt: HostRuntime) -> Result<(), Fail> {
    for letters in ["%u", "%u1", "%u12", "%u123", "%", "%1", "%%", "%u%u", "%g0"] {
        assert!(rt; stays(rt.alloc(), letters)?, "{letters}");
    }
    Ok(())
}

#[test]
fn lone_surrogates_are_replaced(rt: HostRuntime) -> Result<(), Fail> {
    for unit in [0xd800, 0xdbff, 0xdc00, 0xdfff] {
        let units = [unit; 1_000];
        let text = units_text(rt.alloc(), &units)?;
        assert_eq!(rt; text.len(), 3_000);
        assert!(rt; text.as_str().starts_with("\u{fffd}\u{fffd}"));
    }
    Ok(())
}
