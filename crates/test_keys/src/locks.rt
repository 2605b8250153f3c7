//! Infos with a key, for the tests beside it, and what unlocking them comes to.

use crate::pieces::key_id;
use jed_format::write_chunk;
use jed_sealing::{Grain, Strength, seal_piece};
use jop_base::{Id, Seq, Text};
use master_keys::{KeyErr, Ring, unlock};
use std::alloc::Global;
use std::test::*;
use sync_info::{Info, KeyRecord};

/// What some digits are sealed to under `password`.
fn content(alloc: Global, digits: &[u8]) -> Result<Text, Fail> {
    if digits.len() > 512 {
        return Err("too long")?;
    }
    let grain = Grain {
        iv: [7; 16],
        salt: [9; 8],
    };
    let chunk = seal_piece(alloc, b"password", Strength::OfKey, digits, &grain)?;
    if !chunk.is_valid() {
        return Err("no chunk")?;
    }
    let bytes = write_chunk(alloc, &chunk)?;
    Ok(Text::read(alloc, bytes.as_slice())?.ok_or("no text")?)
}

/// An info whose key has this record, and is the active one if it has an id.
fn info_of(alloc: Global, content: Text, active: &str) -> Result<Info, Fail> {
    let mut info = Info::new(alloc, 3);
    info.keys.push(KeyRecord {
        id: key_id()?,
        content,
        updated: 0,
        others: Seq::new(alloc),
    })?;
    info.active.value = Text::of(alloc, active)?;
    info.e2ee.value = true;
    Ok(info)
}

const KEY: &str = "11111111111111111111111111111111";

/// An info with a key whose digits are `digits`, under `password`.
pub(crate) fn info_with_key(alloc: Global, active: &str) -> Result<Info, Fail> {
    let content = content(alloc, b"digits")?;
    info_of(alloc, content, active)
}

/// The ring of that info.
pub(crate) fn ring(alloc: Global, active: &str, password: Option<&str>) -> Result<Ring, Fail> {
    let info = info_with_key(alloc, active)?;
    let ring = match password {
        Some(password) => unlock(alloc, &info, Some(&Text::of(alloc, password)?))?,
        None => unlock(alloc, &info, None)?,
    };
    Ok(ring)
}

/// What the password is refused for.
fn refusal(alloc: Global, info: &Info, password: &str) -> Result<Option<KeyErr>, Fail> {
    let password = Text::of(alloc, password)?;
    Ok(unlock(alloc, info, Some(&password)).err())
}

#[test]
fn a_key_is_here_under_its_password_alone(rt: HostRuntime) -> Result<(), Fail> {
    let alloc = rt.alloc();
    let id = key_id()?;
    let other = Id::read(b"22222222222222222222222222222222").ok_or("no id")?;
    let mut open = ring(alloc, KEY, Some("password"))?;
    assert!(rt; open.has(alloc, &id)? && open.has(alloc, &id)? && !open.has(alloc, &other)?);
    assert!(rt; open.seals() && open.active() == Some(id));
    let mut shut = ring(alloc, KEY, None)?;
    assert!(rt; !shut.has(alloc, &id)? && shut.active() == Some(id));
    Ok(())
}

#[test]
fn a_wrong_password_is_one_of_the_active_key(rt: HostRuntime) -> Result<(), Fail> {
    let alloc = rt.alloc();
    let wrong = Some(KeyErr::BadPassword(key_id()?));
    let active = info_with_key(alloc, KEY)?;
    assert_eq!(rt; refusal(alloc, &active, "passwort")?, wrong);
    assert_eq!(rt; refusal(alloc, &active, "password")?, None);
    let none_active = info_with_key(alloc, "")?;
    assert_eq!(rt; refusal(alloc, &none_active, "passwort")?, None);
    let unreadable = info_of(alloc, Text::of(alloc, "{}")?, KEY)?;
    assert_eq!(rt; refusal(alloc, &unreadable, "passwort")?, None);
    Ok(())
}
