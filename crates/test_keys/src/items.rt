ghost use Rattle.std.specs.Prelude.{IfOk};
ghost use Rattle.item_text.specs.Valid.{IsItem};

use crate::locks::ring;
use crate::pieces::{counting, key_id};
use item_text::{Item, read_item, write_item};
use jed_format::{open_blob, read_jed};
use jop_base::Bytes;
use master_keys::{KeyErr, Ring, open_item, seal_blob, seal_item};
use std::alloc::Global;
use std::test::*;

const KEY: &str = "11111111111111111111111111111111";

const NOTE: &str = concat!(
    "Shopping\n\n- milk é\n\nid: aaaaaaaaaaaaaaaaaaaaaaaaaaaaaaaa\n",
    "parent_id: ffffffffffffffffffffffffffffffff\nupdated_time: 2020-09-13T12:26:41.000Z\n",
    "x_new: kept\ntype_: 1"
);

/// How the text of the sealed note begins.
const FRAME: &str = concat!(
    "id: aaaaaaaaaaaaaaaaaaaaaaaaaaaaaaaa\nparent_id: ffffffffffffffffffffffffffffffff\n",
    "updated_time: 2020-09-13T12:26:41.000Z\nencryption_applied: 1\n",
    "encryption_cipher_text: JED010000220511111111111111111111111111111111"
);

/// An item, sealed by bytes that count up.
fn sealed(alloc: Global, text: &str, ring: &mut Ring) -> Result<Item, Fail>
    ensures { IfOk result IsItem }
{
    let item = read_item(alloc, text.as_bytes())?;
    let mut entropy = counting(alloc, 24)?;
    Ok(seal_item(alloc, &item, ring, &mut entropy)?)
}

/// Why nothing is sealed by so many bytes.
fn refusal(alloc: Global, ring: &mut Ring, len: u8) -> Result<Option<KeyErr>, Fail> {
    let item = read_item(alloc, NOTE.as_bytes())?;
    let mut entropy = counting(alloc, len)?;
    Ok(seal_item(alloc, &item, ring, &mut entropy).err())
}

/// The item with another value of a key.
fn changed(alloc: Global, item: &Item, from: &str, to: &str) -> Result<Item, Fail>
    requires { IsItem item.now }
{
    let text = write_item(alloc, item)?;
    let letters = std::str::from_utf8(text.as_slice())?;
    let (front, back) = letters.split_once(from).ok_or("no such part")?;
    let other = format!(in alloc; "{front}{to}{back}")?;
    Ok(read_item(alloc, other.as_bytes())?)
}

#[test]
fn a_note_stands_in_a_frame_and_is_opened_again(rt: HostRuntime) -> Result<(), Fail> {
    let alloc = rt.alloc();
    let mut ring = ring(alloc, KEY, Some("password"))?;
    let outer = sealed(alloc, NOTE, &mut ring)?;
    let text = write_item(alloc, &outer)?;
    assert!(rt; text.as_slice().starts_with(FRAME.as_bytes()));
    let inner = open_item(alloc, &outer, &mut ring)?;
    assert!(rt; write_item(alloc, &inner)?.as_slice() == NOTE.as_bytes());
    Ok(())
}

/// Why a sealed note with a part of its text changed isn't opened by a ring.
fn shut(
    alloc: Global,
    password: Option<&str>,
    from: &str,
    to: &str,
) -> Result<Option<KeyErr>, Fail> {
    let mut own = ring(alloc, KEY, Some("password"))?;
    let outer = sealed(alloc, NOTE, &mut own)?;
    let outer = changed(alloc, &outer, from, to)?;
    let mut other = ring(alloc, KEY, password)?;
    Ok(open_item(alloc, &outer, &mut other).err())
}

#[test]
fn what_cannot_be_opened_is_told_by_its_cause(rt: HostRuntime) -> Result<(), Fail> {
    let alloc = rt.alloc();
    let id = Some(KeyErr::NoKey(Some(key_id()?)));
    assert_eq!(rt; shut(alloc, None, "JED01", "JED01")?, id);
    let other = shut(alloc, Some("password"), "id: a", "id: b")?;
    assert_eq!(rt; other, Some(KeyErr::BadItem));
    let cut = shut(alloc, None, "JED01", "JED02")?;
    assert!(rt; matches!(cut, Some(KeyErr::Jed(_))));
    Ok(())
}

#[test]
fn nothing_is_sealed_without_its_key_or_random_bytes(rt: HostRuntime) -> Result<(), Fail> {
    let alloc = rt.alloc();
    let key = Some(KeyErr::NoKey(Some(key_id()?)));
    assert_eq!(rt; refusal(alloc, &mut ring(alloc, KEY, None)?, 0)?, key);
    let mut none = ring(alloc, "", Some("password"))?;
    assert_eq!(rt; refusal(alloc, &mut none, 24)?, Some(KeyErr::NoKey(None)));
    let mut own = ring(alloc, KEY, Some("password"))?;
    assert_eq!(rt; refusal(alloc, &mut own, 23)?, Some(KeyErr::EntropyFault));
    Ok(())
}

/// What the bytes of a sealed blob open to.
fn opened_blob(alloc: Global, text: &[u8]) -> Result<Bytes, Fail> {
    let jed = read_jed(alloc, text)?;
    Ok(open_blob(alloc, &jed, b"digits")?)
}

#[test]
fn a_blob_is_opened_again(rt: HostRuntime) -> Result<(), Fail> {
    let alloc = rt.alloc();
    let mut ring = ring(alloc, KEY, Some("password"))?;
    let blob = Bytes::from_vec(b"\x00\xffABC".to_vec(alloc)?);
    let mut entropy = counting(alloc, 24)?;
    let text = seal_blob(alloc, &blob, &mut ring, &mut entropy)?;
    assert!(rt; opened_blob(alloc, text.as_slice())?.as_slice() == blob.as_slice());
    Ok(())
}
