//! Items and their texts.

use item_text::{
    BadItem, BadWhy, Item, ItemErr, canonical_parts, escape_value, is_item, prop, read_item,
    set_prop, trimmed, unescape_value, write_item,
};
use jop_base::{Copied, Text};
use std::alloc::{AllocError, Global};
use std::test::*;

/// A note as Joplin's desktop client writes it.
const NOTE: &str = "Shopping\n\n- milk\n- bread: two\n\nid: aaaaaaaaaaaaaaaaaaaaaaaaaaaaaaaa
parent_id: ffffffffffffffffffffffffffffffff\ncreated_time: 2020-09-13T12:26:40.000Z
updated_time: 2020-09-13T12:26:41.000Z\nis_conflict: 0\nlatitude: 0.00000000\nlongitude: 0.00000000
altitude: 0.0000\nauthor: \nsource_url: \nis_todo: 0\ntodo_due: 0\ntodo_completed: 0
source: joplin-desktop\nsource_application: net.cozic.joplin-desktop\napplication_data: \norder: 0
user_created_time: 2020-09-13T12:26:40.000Z\nuser_updated_time: 2020-09-13T12:26:41.000Z
encryption_cipher_text: \nencryption_applied: 0\nmarkup_language: 1\nis_shared: 0\ntype_: 1";

/// Texts, and how they are written back.
const REWRITTEN: [(&str, &str); 6] = [
    (NOTE, NOTE),
    (
        "T\n\nx_new: a:b\nkey: 1\nkey: 2\ntype_: 1",
        "T\n\nx_new: a:b\nkey: 1\nkey: 2\ntype_: 1",
    ),
    ("\n\nid: a\ntype_: 1", "\n\nid: a\ntype_: 1"),
    (
        "T\n\nb\n\n\n\nid: a\ntype_: 1",
        "T\n\nb\n\n\n\nid: a\ntype_: 1",
    ),
    (
        "T\nx\nb\n\r\n\tkey :v\u{c}\ntype_:1",
        "T\n\nb\n\nkey: v\ntype_: 1",
    ),
    (":\n:\ntype_:007", ": \n: \ntype_: 007"),
];

/// Whether an item is a good one, and is written so.
pub fn is_written(alloc: Global, item: &Item, text: &str) -> Result<bool, AllocError> {
    Ok(is_item(item) && write_item(alloc, item)?.as_slice() == text.as_bytes())
}

fn is_copied(alloc: Global, item: &Item, text: &str) -> Result<bool, AllocError> {
    let copy = item.copy(alloc)?;
    is_written(alloc, &copy, text)
}

fn is_rewritten(alloc: Global, text: &str, wanted: &str) -> Result<bool, ItemErr> {
    let item = read_item(alloc, text.as_bytes())?;
    Ok(is_copied(alloc, &item, wanted)?)
}

/// The parts of the canonical text, one behind the other.
fn canonical(alloc: Global, text: &str) -> Result<Text, ItemErr> {
    let (mut before, body, behind) = canonical_parts(alloc, text.as_bytes())?;
    before.append(body)?;
    before.append(behind.as_str())?;
    Ok(before)
}

fn is_canonical(alloc: Global, text: &str, wanted: &str) -> Result<bool, ItemErr> {
    Ok(canonical(alloc, text)?.as_str() == wanted)
}

#[test]
fn texts_are_written_back(rt: HostRuntime) -> Result<(), Fail> {
    for (text, wanted) in REWRITTEN {
        assert!(rt; is_rewritten(rt.alloc(), text, wanted)?, "{text}");
        assert!(rt; is_canonical(rt.alloc(), text, wanted)?, "{text}");
    }
    Ok(())
}

/// Whether an item has this title. None has none.
fn has_title(item: &Item, wanted: &str) -> bool {
    match &item.title {
        Some(title) => title.as_str() == wanted,
        None => false,
    }
}

#[test]
fn a_note_is_taken_apart(rt: HostRuntime) -> Result<(), Fail> {
    let item = read_item(rt.alloc(), NOTE.as_bytes())?;
    assert!(rt; is_item(&item) && has_title(&item, "Shopping"));
    assert!(rt; item.body.as_str() == "- milk\n- bread: two" && item.props.len() == 24);
    Ok(())
}

fn has_value(item: &Item, key: &[u8], wanted: &str) -> bool {
    match prop(item, key) {
        Some(value) => value.as_str() == wanted,
        None => false,
    }
}

/// Sets the first of two pairs, and one that is new.
fn set_pairs(alloc: Global, item: &mut Item) -> Result<(), AllocError> {
    set_prop(alloc, item, "key", Text::of(alloc, "3")?)?;
    set_prop(alloc, item, "new", Text::of(alloc, "")?)
}

#[test]
fn a_pair_is_set_in_its_place(rt: HostRuntime) -> Result<(), Fail> {
    let text = "T\n\nkey: 1\nkey: 2\ntype_: 1";
    let mut item = read_item(rt.alloc(), text.as_bytes())?;
    assert!(rt; has_value(&item, b"key", "1"));
    set_pairs(rt.alloc(), &mut item)?;
    let set = "T\n\nkey: 3\nkey: 2\nnew: \ntype_: 1";
    assert!(rt; is_written(rt.alloc(), &item, set)?);
    Ok(())
}

/// Texts that are refused, each with the line that is at fault.
const REFUSED: [(&[u8], u64, BadWhy); 6] = [
    (b"type_: 1\n", 0, BadWhy::NoType),
    (b"type_: 1000\nid:", 1, BadWhy::TypeValue),
    (b"T\n\nid: a\nbad line\ntype_: 1", 4, BadWhy::NoColon),
    (b"x\ny", 2, BadWhy::NoColon),
    (b"T\n\n\xc2\xa0type_: 1", 0, BadWhy::NoType),
    (b"\xff", 0, BadWhy::NotText),
];

fn refusal(alloc: Global, text: &[u8]) -> Option<ItemErr> {
    read_item(alloc, text).err()
}

fn bad(line: u64, why: BadWhy) -> Option<ItemErr> {
    Some(ItemErr::Bad(BadItem { line, why }))
}

#[test]
fn the_first_refusal_is_answered(rt: HostRuntime) {
    for (text, line, why) in REFUSED {
        assert!(rt; refusal(rt.alloc(), text) == bad(line, why), "{line}");
    }
}

/// Values, and the lines that stand for them.
const ESCAPED: [(&str, &str); 3] = [("\\\nx", "\\\\\\nx"), ("a\tb\r", "a\tb\\r"), ("", "")];

/// Whether a value is escaped to this line, and back.
fn is_escaped(alloc: Global, value: &str, line: &str) -> Result<bool, AllocError> {
    let made = escape_value(alloc, &Text::of(alloc, value)?)?;
    Ok(made.as_str() == line && unescape_value(alloc, &made)?.as_str() == value)
}

#[test]
fn escaped_values_are_on_one_line(rt: HostRuntime) -> Result<(), Fail> {
    for (value, line) in ESCAPED {
        assert!(rt; is_escaped(rt.alloc(), value, line)?, "{line}");
    }
    assert_eq!(rt; trimmed("\t\u{b} a b\u{a0}\u{c}\r"), "a b\u{a0}");
    Ok(())
}

/// Why a text of so many equal bytes is refused.
fn refusal_of(alloc: Global, byte: u8, count: usize) -> Result<Option<ItemErr>, AllocError> {
    let text = vec![in alloc; byte; count]?;
    Ok(refusal(alloc, text.as_slice()))
}

#[test]
fn huge_texts_are_read_in_linear_time(rt: HostRuntime) -> Result<(), Fail> {
    for (byte, count, line, why) in [
        (b'\n', 16_777_216, 0, BadWhy::NoType),
        (b'x', 16_777_216, 1, BadWhy::NoColon),
        (b':', 1_000_000, 0, BadWhy::NoType),
    ] {
        assert!(rt; refusal_of(rt.alloc(), byte, count)? == bad(line, why));
    }
    Ok(())
}

fn pairs(alloc: Global, count: usize) -> Result<Text, AllocError> {
    let mut text = Text::new(alloc);
    for _ in 0..count {
        text.append("a: b\n")?;
    }
    text.append("type_: 1")?;
    Ok(text)
}

fn count_of(alloc: Global, text: &Text) -> Result<usize, ItemErr> {
    Ok(read_item(alloc, text.as_slice())?.props.len())
}

#[test]
fn a_million_pairs_are_read(rt: HostRuntime) -> Result<(), Fail> {
    let text = pairs(rt.alloc(), 1_000_000)?;
    assert_eq!(rt; count_of(rt.alloc(), &text)?, 1_000_001);
    Ok(())
}
