ghost use Rattle.std.specs.Prelude.{◌≡◌, ◌≤◌, Some, IfOk, codes};
ghost use Rattle.jop_base.specs.Times.{last_time};
ghost use Rattle.item_text.specs.Lines.{trimmed};
ghost use Rattle.item_text.specs.Escape.{escaped};
ghost use Rattle.item_text.specs.Valid.{IsItem};
ghost use Rattle.item_kinds.specs.Kinds.{IsKind, GivesId};
ghost use Rattle.item_kinds.specs.Made.{IsLine, resource};
ghost use Rattle.item_kinds.specs.Slots.{given, filled, resource_slots};

use crate::kind::Kind;
use crate::pairs::pairs;
use crate::time::write_time;
use item_text::{Item, Prop, escape_value, trimmed};
use jop_base::{Id, Seq, Text, decimal_text};
use std::alloc::{AllocError, Global};

fn resource_props<'x>(
    alloc: Global,
    id: &'x str,
    mime: &'x str,
    file: &'x str,
    size: &'x str,
    stamp: &'x str,
) -> Result<Seq<Prop>, AllocError>
    ensures { IfOk result (λ props. props ≡ filled resource_slots (record (given id.now stamp.now) {
      mime = mime.now;
      file = file.now;
      size = size.now;
    })) }
{
    pairs(
        alloc,
        &[
            ("id", id),
            ("mime", mime),
            ("filename", file),
            ("created_time", stamp),
            ("updated_time", stamp),
            ("user_created_time", stamp),
            ("user_updated_time", stamp),
            ("file_extension", ""),
            ("encryption_cipher_text", ""),
            ("encryption_applied", "0"),
            ("encryption_blob_encrypted", "0"),
            ("size", size),
            ("is_shared", "0"),
            ("type_", "4"),
        ],
    )
}

/// The name without blanks at its ends, escaped.
fn file_name(alloc: Global, name: &Text) -> Result<Text, AllocError>
    ensures { IfOk result (λ file. file ≡ escaped (trimmed name.now)) }
{
    let name = Text::of(alloc, trimmed(name.as_str()))?;
    escape_value(alloc, &name)
}

/// A new resource of that many bytes. Its title is the name.
pub fn resource_item(
    alloc: Global,
    id: &Id,
    name: Text,
    mime: Text,
    len: u64,
    now: u64,
) -> Result<Item, AllocError>
    requires name { IsLine name }
    requires mime { IsLine mime }
    requires trimmed { trimmed mime ≡ mime }
    requires time { now ≤ last_time }

    ensures made { IfOk result (λ item. item ≡ resource id.now name mime len now) }
    ensures valid { IfOk result IsItem }
    ensures kind { IfOk result (λ item. IsKind item.props (Some Kind.RESOURCE)) }
    ensures id { IfOk result (λ item. GivesId (codes "id") item.props (Some id.now)) }
{
    let stamp = write_time(alloc, now)?;
    let mime = escape_value(alloc, &mime)?;
    let file = file_name(alloc, &name)?;
    let size = decimal_text(alloc, len)?;
    let props = resource_props(
        alloc,
        id.as_str(),
        mime.as_str(),
        file.as_str(),
        size.as_str(),
        stamp.as_str(),
    )?;
    Ok(Item {
        title: Some(name),
        body: Text::new(alloc),
        props,
    })
}
