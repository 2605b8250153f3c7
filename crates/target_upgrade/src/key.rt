ghost use Rattle.std.specs.Prelude.{◌≡◌, codes, option_and_then, IfOk, IfSome, OnOk};
ghost use Rattle.item_kinds.specs.Kinds.{type_number};
ghost use Rattle.item_text.specs.Props.{has_value, type_key, value_of};
ghost use Rattle.sync_info.specs.Info.{IsInfo, IsKeyRecord, has_id};
ghost use Rattle.std.specs.List.{list_any};
ghost use Rattle.target_upgrade.specs.Keys.{is_key, is_master, tells_sealed};
ghost use Rattle.target_upgrade.specs.Keys.{key_of, key_of_item, with_key};
ghost use Rattle.target_upgrade.specs.Steps.{key_in};

use item_kinds::{Kind, id_of, is_sealed, kind_of, updated_of};
use item_text::{Item, ItemErr, prop, read_item};
use jop_base::{Copied, Id, Seq};
use jop_target::Reply;
use std::alloc::{AllocError, Global};
use sync_info::{Info, KeyRecord};

/// Whether the item has this id.
fn is_of(item: &Item, id: &Id) -> bool
    ensures { result ≡ has_value (codes "id") id.now item.now.props }
{
    id.prove_valid();
    id_of(item) == Some(*id)
}

/// Whether the item is sealed.
fn is_hidden(item: &Item) -> bool
    ensures { result ≡ tells_sealed item.now.props }
{
    is_sealed(item)
}

/// Whether the item is a master key.
fn is_master(item: &Item) -> bool
    ensures { result ≡ is_master item.now.props }
{
    kind_of(item) == Some(Kind::MASTER_KEY)
}

/// Whether the item is an unsealed master key of this id.
#[tactic(auto, using(crate::proofs::KeyFacts::id_is))]
fn is_key(item: &Item, id: &Id) -> bool
    ensures { result ≡ is_key id.now item.now.props }
{
    id.prove_valid();
    is_of(item, id) && !is_hidden(item) && is_master(item)
}

/// The key that an item gives, if it gives one.
fn key_of_item(alloc: Global, item: &Item, id: &Id) -> Result<Option<KeyRecord>, AllocError>
    ensures key { IfOk result (λ key. key ≡ key_of_item id.now item.now) }
    ensures valid { IfOk result (λ key. IfSome key IsKeyRecord) }
{
    if !is_key(item, id) {
        return Ok(None);
    }
    let Some(content) = prop(item, b"content") else {
        return Ok(None);
    };
    id.prove_valid();
    Ok(Some(KeyRecord {
        id: *id,
        content: content.copy(alloc)?,
        updated: updated_of(item),
        others: Seq::new(alloc),
    }))
}

/// The key that a file of this id gives: it must be the text of an unsealed master key of that id.
fn key_of(alloc: Global, bytes: &[u8], id: &Id) -> Result<Option<KeyRecord>, AllocError>
    ensures key { IfOk result (λ key. key ≡ key_of id.now bytes.now) }
    ensures valid { IfOk result (λ key. IfSome key IsKeyRecord) }
{
    match read_item(alloc, bytes) {
        Ok(item) => Ok(key_of_item(alloc, &item, id)?),
        Err(ItemErr::Bad(_)) => Ok(None),
        Err(ItemErr::NoMemory) => Err(AllocError),
    }
}

/// The key that the file gives which was got, if it gives one.
pub(crate) fn got_key(
    alloc: Global,
    reply: &Reply,
    id: &Id,
) -> Result<Option<KeyRecord>, AllocError>
    ensures key { IfOk result (λ key. key ≡ key_in id.now reply.now) }
    ensures valid { IfOk result (λ key. IfSome key IsKeyRecord) }
{
    match reply {
        Reply::Got { now: _, content } => Ok(key_of(alloc, content.as_slice(), id)?),
        _ => Ok(None),
    }
}

/// Whether the info has a key of this id.
fn has_key(info: &Info, id: &Id) -> bool
    ensures { result ≡ list_any (has_id id.now) info.now.keys }
{
    info.keys.as_slice().iter().any(|key| key.id == *id)
}

/// Takes a key into the info, unless it has one of that id.
pub(crate) fn add_key(info: &mut Info, key: Option<KeyRecord>) -> Result<(), AllocError>
    requires info { IsInfo info.old }
    requires key { IfSome key IsKeyRecord }
    ensures ok { OnOk result (info.new ≡ with_key key info.old) }
    ensures valid { OnOk result (IsInfo info.new) }
{
    let Some(key) = key else {
        return Ok(());
    };
    if !has_key(info, &key.id) {
        info.keys.push(key)?;
    }
    Ok(())
}
