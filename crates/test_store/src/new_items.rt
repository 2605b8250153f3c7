//! New items, each with its pairs.

use crate::texts::is_written;
use item_kinds::{
    Kind, folder_item, id_of, is_sealed, kind_of, note_item, note_of, note_tag_item, parent_of,
    resource_item, tag_item, tag_of, updated_of,
};
use item_text::Item;
use jop_base::{Id, Text};
use std::alloc::{AllocError, Global};
use std::test::*;

const NOW: u64 = 1_600_000_000_000;

fn read_id(digit: u8) -> Option<Id> {
    Id::read(&[digit; 32])
}

fn id(digit: u8) -> Result<Id, Fail> {
    Ok(read_id(digit).ok_or("an id")?)
}

const NOTE: &str = "Shopping\n\n- milk\n\nid: aaaaaaaaaaaaaaaaaaaaaaaaaaaaaaaa\n\
    parent_id: ffffffffffffffffffffffffffffffff\n\
    created_time: 2020-09-13T12:26:40.000Z\nupdated_time: 2020-09-13T12:26:40.000Z\n\
    is_conflict: 0\nlatitude: 0.00000000\nlongitude: 0.00000000\naltitude: 0.0000\n\
    author: \nsource_url: \nis_todo: 0\ntodo_due: 0\ntodo_completed: 0\nsource: jop\n\
    source_application: jop\napplication_data: \norder: 0\n\
    user_created_time: 2020-09-13T12:26:40.000Z\n\
    user_updated_time: 2020-09-13T12:26:40.000Z\nencryption_cipher_text: \n\
    encryption_applied: 0\nmarkup_language: 1\nis_shared: 0\ntype_: 1";

fn new_note(alloc: Global, id: Id, parent: Id) -> Result<Item, AllocError> {
    let title = Text::of(alloc, "Shopping")?;
    let body = Text::of(alloc, "- milk")?;
    note_item(alloc, &id, &parent, title, body, NOW)
}

fn is_note(item: &Item, id: Id, parent: Id) -> bool {
    kind_of(item) == Some(Kind::NOTE)
        && id_of(item) == Some(id)
        && parent_of(item) == Some(parent)
        && updated_of(item) == NOW
        && !is_sealed(item)
}

#[test]
fn a_new_note_has_its_pairs(rt: HostRuntime) -> Result<(), Fail> {
    let (id, parent) = (id(b'a')?, id(b'f')?);
    let item = new_note(rt.alloc(), id, parent)?;
    assert!(rt; is_written(rt.alloc(), &item, NOTE)?);
    assert!(rt; is_note(&item, id, parent));
    Ok(())
}

const FOLDER: &str =
    "Home\n\nid: ffffffffffffffffffffffffffffffff\ncreated_time: 2020-09-13T12:26:40.000Z\n\
    updated_time: 2020-09-13T12:26:40.000Z\nuser_created_time: 2020-09-13T12:26:40.000Z\n\
    user_updated_time: 2020-09-13T12:26:40.000Z\nencryption_cipher_text: \n\
    encryption_applied: 0\nparent_id: \nis_shared: 0\ntype_: 2";

fn new_folder(alloc: Global, id: Id) -> Result<Item, AllocError> {
    let title = Text::of(alloc, "Home")?;
    folder_item(alloc, &id, None, title, NOW)
}

#[test]
fn a_new_folder_has_its_pairs(rt: HostRuntime) -> Result<(), Fail> {
    let item = new_folder(rt.alloc(), id(b'f')?)?;
    assert!(rt; is_written(rt.alloc(), &item, FOLDER)?);
    assert!(rt; parent_of(&item).is_none());
    Ok(())
}

const TAG: &str =
    "food\n\nid: cccccccccccccccccccccccccccccccc\ncreated_time: 2020-09-13T12:26:40.000Z\n\
    updated_time: 2020-09-13T12:26:40.000Z\nuser_created_time: 2020-09-13T12:26:40.000Z\n\
    user_updated_time: 2020-09-13T12:26:40.000Z\nencryption_cipher_text: \n\
    encryption_applied: 0\nparent_id: \nis_shared: 0\ntype_: 5";

fn new_tag(alloc: Global, id: Id) -> Result<Item, AllocError> {
    let title = Text::of(alloc, "food")?;
    tag_item(alloc, &id, title, NOW)
}

#[test]
fn a_new_tag_has_its_pairs(rt: HostRuntime) -> Result<(), Fail> {
    let item = new_tag(rt.alloc(), id(b'c')?)?;
    assert!(rt; is_written(rt.alloc(), &item, TAG)?);
    Ok(())
}

const NOTE_TAG: &str =
    "id: eeeeeeeeeeeeeeeeeeeeeeeeeeeeeeee\nnote_id: aaaaaaaaaaaaaaaaaaaaaaaaaaaaaaaa\n\
    tag_id: cccccccccccccccccccccccccccccccc\ncreated_time: 2020-09-13T12:26:40.000Z\n\
    updated_time: 2020-09-13T12:26:40.000Z\nuser_created_time: 2020-09-13T12:26:40.000Z\n\
    user_updated_time: 2020-09-13T12:26:40.000Z\nencryption_cipher_text: \n\
    encryption_applied: 0\nis_shared: 0\ntype_: 6";

fn is_note_tag(item: &Item, note: Id, tag: Id) -> bool {
    note_of(item) == Some(note) && tag_of(item) == Some(tag)
}

#[test]
fn a_new_tag_on_a_note_has_its_pairs(rt: HostRuntime) -> Result<(), Fail> {
    let (own, note, tag) = (id(b'e')?, id(b'a')?, id(b'c')?);
    let item = note_tag_item(rt.alloc(), &own, &note, &tag, NOW)?;
    assert!(rt; is_written(rt.alloc(), &item, NOTE_TAG)?);
    assert!(rt; is_note_tag(&item, note, tag));
    Ok(())
}

const RESOURCE: &str = " a\\b.txt \n\nid: dddddddddddddddddddddddddddddddd\nmime: text/plain\n\
    filename: a\\\\b.txt\ncreated_time: 2020-09-13T12:26:40.000Z\n\
    updated_time: 2020-09-13T12:26:40.000Z\nuser_created_time: 2020-09-13T12:26:40.000Z\n\
    user_updated_time: 2020-09-13T12:26:40.000Z\nfile_extension: \n\
    encryption_cipher_text: \nencryption_applied: 0\nencryption_blob_encrypted: 0\n\
    size: 5\nis_shared: 0\ntype_: 4";

fn new_resource(alloc: Global, id: Id) -> Result<Item, AllocError> {
    let name = Text::of(alloc, " a\\b.txt ")?;
    let mime = Text::of(alloc, "text/plain")?;
    resource_item(alloc, &id, name, mime, 5, NOW)
}

#[test]
fn a_new_resource_has_its_pairs(rt: HostRuntime) -> Result<(), Fail> {
    let item = new_resource(rt.alloc(), id(b'd')?)?;
    assert!(rt; is_written(rt.alloc(), &item, RESOURCE)?);
    Ok(())
}
