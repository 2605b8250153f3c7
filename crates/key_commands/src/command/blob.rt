ghost use Rattle.std.specs.Prelude.{◌≡◌, Ok};
ghost use Rattle.item_text.specs.Props.{has_value};
ghost use Rattle.key_commands.specs.Commands.Blob.{IsLentRow, IsShownOr, ShowsBlob, ShowsRow};
ghost use Rattle.key_commands.specs.Commands.Blob.{resource_meant, resource_of, says_bytes_sealed};
ghost use Rattle.key_commands.specs.Commands.Blob.{shown_bytes, shown_of};
ghost use Rattle.key_commands.specs.Refusals.{of_opening, opened_for};
ghost use Rattle.key_records.specs.SealedBytes.{opened_bytes};
ghost use Rattle.local_store.specs.Tables.{row_at};

use crate::keys_err::KeysErr;
use crate::vault::Vault;
use item_kinds::Kind;
use item_text::{Item, prop};
use jop_base::{Bytes, Id, Text};
use key_records::open_sealed_bytes;
use local_commands::TypedId;
use local_store::{Content, Row, Tables, has_kind};
use master_keys::KeyErr;
use std::alloc::Global;
use sync_info::Info;

/// The row of an id, which has to be a resource.
fn resource_of<'a>(tables: &'a Tables, id: &Id) -> Result<&'a Row, KeysErr>
    ensures { IsLentRow (resource_of id.now (row_at tables.now id.now)) result }
{
    match tables.rows.at(id) {
        None => Err(KeysErr::NotFound(*id)),
        Some(row) => {
            if has_kind(row.content.item(), Kind::RESOURCE) {
                Ok(row)
            } else {
                Err(KeysErr::NotFound(*id))
            }
        }
    }
}

/// The resource that is meant.
fn resource_meant<'a>(tables: &'a Tables, typed: &TypedId) -> Result<&'a Row, KeysErr>
    ensures { IsLentRow (resource_meant tables.now typed.now) result }
{
    let id = typed.find(tables)?;
    resource_of(tables, &id)
}

/// Whether an item says that its bytes are sealed.
fn says_bytes_sealed(item: &Item) -> bool
    ensures { result ≡ says_bytes_sealed item.now }
{
    match prop(item, b"encryption_blob_encrypted") {
        Some(value) => value.as_slice() == b"1".as_slice(),
        None => false,
    }
}

/// Why the bytes of the resource of an id weren't opened.
fn refusal_of(id: &Id, error: KeyErr) -> KeysErr
    ensures { result ≡ of_opening id.now error }
{
    match error {
        KeyErr::NoKey(key) => KeysErr::NoKey(key),
        KeyErr::BadPassword(key) => KeysErr::BadPassword(key),
        KeyErr::Jed(_) => KeysErr::Sealed(*id),
        KeyErr::BadItem => KeysErr::Sealed(*id),
        KeyErr::EntropyFault => KeysErr::Sealed(*id),
        KeyErr::NoMemory => KeysErr::NoMemory,
    }
}

/// What sealed bytes open to.
fn open_bytes(
    alloc: Global,
    info: &Info,
    password: &Option<Text>,
    id: &Id,
    bytes: &Bytes,
) -> Result<Bytes, KeysErr>
    ensures { IsShownOr (opened_for id.now (opened_bytes info.now password.now bytes.now)) result }
{
    match open_sealed_bytes(alloc, info, password, bytes) {
        Ok(opened) => Ok(opened),
        Err(error) => Err(refusal_of(id, error)),
    }
}

/// The bytes of a resource as they are, or what they open to if its item says that they are sealed.
fn shown_of(
    alloc: Global,
    info: &Info,
    password: &Option<Text>,
    row: &Row,
    bytes: Bytes,
) -> Result<Bytes, KeysErr>
    ensures { IsShownOr (shown_of info.now password.now row.now.id row.now.content bytes) result }
{
    match &row.content {
        Content::Sealed(_) => Err(KeysErr::Sealed(row.id)),
        Content::Plain(item) => {
            if says_bytes_sealed(item) {
                open_bytes(alloc, info, password, &row.id, &bytes)
            } else {
                Ok(bytes)
            }
        }
    }
}

/// The same, whose bytes are these if any are kept.
fn shown_bytes(
    alloc: Global,
    info: &Info,
    password: &Option<Text>,
    row: &Row,
    bytes: Option<Bytes>,
) -> Result<Bytes, KeysErr>
    ensures { IsShownOr (shown_bytes info.now password.now row.now bytes) result }
{
    match bytes {
        None => Err(KeysErr::NotFound(row.id)),
        Some(bytes) => shown_of(alloc, info, password, row, bytes),
    }
}

/// What is shown of a resource that was found.
fn show_row<V: Vault>(
    alloc: Global,
    vault: &mut V,
    info: &Info,
    row: &Row,
    password: &Option<Text>,
) -> Result<Bytes, KeysErr>
    ensures shows { ShowsRow (Ok row.now) info.now password.now (V.now vault.old) result
        (V.now vault.new) }
    ensures stays { V.place vault.new ≡ V.place vault.old }
{
    let bytes = vault.load_blob(alloc, &row.id)?;
    shown_bytes(alloc, info, password, row, bytes)
}

/// Prints the bytes of a resource, opened under a password if its item says that they are sealed.
/// `NotOne` or `NotFound` if no resource is meant whose bytes are kept; `Sealed` if its row is sealed;
/// for sealed bytes `Sealed` if they are no sealed text, `NoKey`, `BadPassword`, and `Sealed` if they
/// don't open.
pub(crate) fn show_blob<V: Vault>(
    alloc: Global,
    vault: &mut V,
    tables: &Tables,
    id: &TypedId,
    password: &Option<Text>,
) -> Result<Bytes, KeysErr>
    ensures shows { ShowsBlob id.now password.now tables.now (V.now vault.old) result
        (V.now vault.new) }
    ensures stays { V.place vault.new ≡ V.place vault.old }
{
    let row = resource_meant(tables, id)?;
    show_row(alloc, vault, &tables.info, row, password)
}
