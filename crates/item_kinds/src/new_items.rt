ghost use Rattle.std.specs.Prelude.{◌≡◌, ◌≤◌, Some, IfOk, [], codes, option_map, unwrap_or};
ghost use Rattle.jop_base.specs.Times.{last_time};
ghost use Rattle.item_text.specs.Valid.{IsField, IsItem};
ghost use Rattle.item_kinds.specs.Kinds.{IsKind, GivesId};
ghost use Rattle.item_kinds.specs.Made.{IsLine, note, folder, tag, note_tag};
ghost use Rattle.item_kinds.specs.Slots.{given, filled, note_slots, folder_slots, note_tag_slots};

use crate::kind::Kind;
use crate::pairs::pairs;
use crate::time::write_time;
use item_text::{Item, Prop};
use jop_base::{Id, Seq, Text};
use std::alloc::{AllocError, Global};

fn note_props<'x>(
    alloc: Global,
    id: &'x str,
    parent: &'x str,
    stamp: &'x str,
) -> Result<Seq<Prop>, AllocError>
    ensures { IfOk result (λ props. props
        ≡ filled note_slots (record (given id.now stamp.now) { parent = parent.now })) }
{
    pairs(
        alloc,
        &[
            ("id", id),
            ("parent_id", parent),
            ("created_time", stamp),
            ("updated_time", stamp),
            ("is_conflict", "0"),
            ("latitude", "0.00000000"),
            ("longitude", "0.00000000"),
            ("altitude", "0.0000"),
            ("author", ""),
            ("source_url", ""),
            ("is_todo", "0"),
            ("todo_due", "0"),
            ("todo_completed", "0"),
            ("source", "jop"),
            ("source_application", "jop"),
            ("application_data", ""),
            ("order", "0"),
            ("user_created_time", stamp),
            ("user_updated_time", stamp),
            ("encryption_cipher_text", ""),
            ("encryption_applied", "0"),
            ("markup_language", "1"),
            ("is_shared", "0"),
            ("type_", "1"),
        ],
    )
}

/// A new note in a folder.
pub fn note_item(
    alloc: Global,
    id: &Id,
    parent: &Id,
    title: Text,
    body: Text,
    now: u64,
) -> Result<Item, AllocError>
    requires title { IsLine title }
    requires time { now ≤ last_time }

    ensures made { IfOk result (λ item. item ≡ note id.now parent.now title body now) }
    ensures valid { IfOk result IsItem }
    ensures kind { IfOk result (λ item. IsKind item.props (Some Kind.NOTE)) }
    ensures id { IfOk result (λ item. GivesId (codes "id") item.props (Some id.now)) }
{
    let stamp = write_time(alloc, now)?;
    let props = note_props(alloc, id.as_str(), parent.as_str(), stamp.as_str())?;
    Ok(Item {
        title: Some(title),
        body,
        props,
    })
}

/// The pairs of a folder or a tag.
fn folder_props<'x>(
    alloc: Global,
    id: &'x str,
    parent: &'x str,
    stamp: &'x str,
    kind: &'x str,
) -> Result<Seq<Prop>, AllocError>
    ensures { IfOk result (λ props. props
        ≡ filled (folder_slots kind.now)
        (record (given id.now stamp.now) { parent = parent.now })) }
{
    pairs(
        alloc,
        &[
            ("id", id),
            ("created_time", stamp),
            ("updated_time", stamp),
            ("user_created_time", stamp),
            ("user_updated_time", stamp),
            ("encryption_cipher_text", ""),
            ("encryption_applied", "0"),
            ("parent_id", parent),
            ("is_shared", "0"),
            ("type_", kind),
        ],
    )
}

/// The digits of a parent. Empty at the top.
fn parent_text(parent: Option<&Id>) -> &str
    ensures text { result.now ≡ unwrap_or (option_map (λ id. id.now) parent.entry) [] }
    ensures field { IsField result.now }
{
    match parent {
        Some(parent) => parent.as_str(),
        None => "",
    }
}

/// A new folder in another one, or at the top.
pub fn folder_item(
    alloc: Global,
    id: &Id,
    parent: Option<&Id>,
    title: Text,
    now: u64,
) -> Result<Item, AllocError>
    requires title { IsLine title }
    requires time { now ≤ last_time }

    ensures made { IfOk result (λ item. item
        ≡ folder id.now (option_map (λ id. id.now) parent.entry) title now) }
    ensures valid { IfOk result IsItem }
    ensures kind { IfOk result (λ item. IsKind item.props (Some Kind.FOLDER)) }
    ensures id { IfOk result (λ item. GivesId (codes "id") item.props (Some id.now)) }
{
    let stamp = write_time(alloc, now)?;
    let props = folder_props(alloc, id.as_str(), parent_text(parent), stamp.as_str(), "2")?;
    Ok(Item {
        title: Some(title),
        body: Text::new(alloc),
        props,
    })
}

/// A new tag.
pub fn tag_item(alloc: Global, id: &Id, title: Text, now: u64) -> Result<Item, AllocError>
    requires title { IsLine title }
    requires time { now ≤ last_time }

    ensures made { IfOk result (λ item. item ≡ tag id.now title now) }
    ensures valid { IfOk result IsItem }
    ensures kind { IfOk result (λ item. IsKind item.props (Some Kind.TAG)) }
    ensures id { IfOk result (λ item. GivesId (codes "id") item.props (Some id.now)) }
{
    let stamp = write_time(alloc, now)?;
    let props = folder_props(alloc, id.as_str(), "", stamp.as_str(), "5")?;
    Ok(Item {
        title: Some(title),
        body: Text::new(alloc),
        props,
    })
}

fn note_tag_props<'x>(
    alloc: Global,
    id: &'x str,
    note: &'x str,
    tag: &'x str,
    stamp: &'x str,
) -> Result<Seq<Prop>, AllocError>
    ensures { IfOk result (λ props. props
        ≡ filled note_tag_slots
        (record (given id.now stamp.now) { note = note.now; tag = tag.now })) }
{
    pairs(
        alloc,
        &[
            ("id", id),
            ("note_id", note),
            ("tag_id", tag),
            ("created_time", stamp),
            ("updated_time", stamp),
            ("user_created_time", stamp),
            ("user_updated_time", stamp),
            ("encryption_cipher_text", ""),
            ("encryption_applied", "0"),
            ("is_shared", "0"),
            ("type_", "6"),
        ],
    )
}

/// A new tag on a note. It has no title.
pub fn note_tag_item(
    alloc: Global,
    id: &Id,
    note: &Id,
    tag: &Id,
    now: u64,
) -> Result<Item, AllocError>
    requires { now ≤ last_time }

    ensures made { IfOk result (λ item. item ≡ note_tag id.now note.now tag.now now) }
    ensures valid { IfOk result IsItem }
    ensures kind { IfOk result (λ item. IsKind item.props (Some Kind.NOTE_TAG)) }
    ensures id { IfOk result (λ item. GivesId (codes "id") item.props (Some id.now)) }
{
    let stamp = write_time(alloc, now)?;
    let props = note_tag_props(
        alloc,
        id.as_str(),
        note.as_str(),
        tag.as_str(),
        stamp.as_str(),
    )?;
    Ok(Item {
        title: None,
        body: Text::new(alloc),
        props,
    })
}
