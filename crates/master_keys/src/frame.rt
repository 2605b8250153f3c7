ghost use Rattle.std.specs.Prelude.{◌≡◌, ◌++◌, ◌∷◌, [], IfOk, OnOk};
ghost use Rattle.item_text.specs.Grammar.{written};
ghost use Rattle.master_keys.specs.Frames.{framed, pair_if, pair_with, place_props, topmost};

use item_text::{Item, Prop, prop, write_around};
use jop_base::{Copied, Seq, Text};
use std::alloc::{AllocError, Global};

/// The text of an item.
pub(crate) fn text_of(alloc: Global, item: &Item) -> Result<Text, AllocError>
    ensures { IfOk result (λ text. text ≡ written item.now) }
{
    let (mut text, behind) = write_around(alloc, item)?;
    text.append(item.body.as_str())?;
    text.append(behind.as_str())?;
    Ok(text)
}

fn add(alloc: Global, props: &mut Seq<Prop>, key: &str, value: Text) -> Result<(), AllocError>
    ensures { OnOk result (props.new ≡ props.old ++ pair_with key.now value ∷ []) }
{
    let key = Text::of(alloc, key)?;
    props.push(Prop { key, value })
}

/// Adds the topmost pair of a key, if the item has one.
fn add_topmost(
    alloc: Global,
    props: &mut Seq<Prop>,
    item: &Item,
    key: &str,
) -> Result<(), AllocError>
    ensures { OnOk result (props.new ≡ props.old ++ topmost key.now item.now) }
{
    match prop(item, key.as_bytes()) {
        Some(value) => {
            let value = value.copy(alloc)?;
            add(alloc, props, key, value)
        }
        None => Ok(()),
    }
}

/// The pairs by which an item is placed.
fn place_props(alloc: Global, item: &Item) -> Result<Seq<Prop>, AllocError>
    ensures { IfOk result (λ props. props ≡ place_props item.now) }
{
    let mut props = Seq::new(alloc);
    add_topmost(alloc, &mut props, item, "id")?;
    add_topmost(alloc, &mut props, item, "parent_id")?;
    add_topmost(alloc, &mut props, item, "note_id")?;
    add_topmost(alloc, &mut props, item, "tag_id")?;
    add_topmost(alloc, &mut props, item, "updated_time")?;
    Ok(props)
}

/// The item with this cipher text in its place.
pub(crate) fn framed(alloc: Global, item: &Item, cipher: Text) -> Result<Item, AllocError>
    ensures { IfOk result (λ outer. outer ≡ framed item.now cipher) }
{
    let mut props = place_props(alloc, item)?;
    let applied = Text::of(alloc, "1")?;
    add(alloc, &mut props, "encryption_applied", applied)?;
    add(alloc, &mut props, "encryption_cipher_text", cipher)?;
    add_topmost(alloc, &mut props, item, "type_")?;
    Ok(Item {
        title: None,
        body: Text::new(alloc),
        props,
    })
}
