//! The writes that make a change.

ghost use Rattle.std.specs.Prelude.{◌≡◌, ◌≢◌, ◌++◌, ◌∷◌, [], ℕ, All, Option, IfOk, OnOk, None, Some, true};
ghost use Rattle.std.specs.Option.{option_copied};
ghost use Rattle.local_store.specs.declared.row.Row.{Row};
ghost use Rattle.item_text.specs.Valid.{IsItem};
ghost use Rattle.local_store.specs.Rows.{item_of};
ghost use Rattle.local_store.specs.Sound.{IsAllowed};
ghost use Rattle.local_store.specs.Tables.{base_of, is_resource_row, is_synced};
ghost use Rattle.keeper_records.specs.Making.{row_needed, needs_number, writes_of, saved_row, synced_row, removal_writes, upload_writes, note_writes, remote_writes, conflict_writes, open_writes};
ghost use Rattle.keeper_records.specs.Stores.{IsSoundRowFor};
ghost use Rattle.keeper_records.specs.Writes.{IsSoundWrite};

use crate::write::Write;
use item_kinds::Kind;
use item_text::Item;
use jop_base::{Bytes, Context, Copied, Id, Seq};
use local_store::{Change, ConflictNote, Content, Deletion, Row, has_kind};
use std::alloc::{AllocError, Global};
use sync_info::Info;

/// The id of the row that has to be known before the writes of the change can be told.
pub(crate) fn row_needed(change: &Change) -> Option<Id>
    ensures { result ≡ row_needed change.now }
{
    match change {
        Change::Saved(id, _)
        | Change::Removed(id)
        | Change::Uploaded(id, _)
        | Change::Conflict(id, _, _)
        | Change::Moved(id)
        | Change::Opened(id, _) => Some(*id),
        _ => None,
    }
}

/// Whether the number of the next conflict note has to be known.
pub(crate) fn needs_number(change: &Change) -> bool
    ensures { result ≡ needs_number change.now }
{
    match change {
        Change::Conflict(_, _, copies) => *copies,
        Change::Moved(_) => true,
        _ => false,
    }
}

fn base_of(alloc: Global, row: Option<&Row>) -> Result<Option<Bytes>, AllocError>
    ensures { IfOk result (λ base. base ≡ base_of (option_copied row.entry)) }
{
    match row {
        Some(row) => row.base.copy(alloc),
        None => Ok(None),
    }
}

fn is_synced(row: Option<&Row>) -> bool
    ensures { result ≡ is_synced (option_copied row.entry) }
{
    match row {
        Some(row) => row.base.is_some(),
        None => false,
    }
}

fn is_resource(row: Option<&Row>) -> bool
    ensures { result ≡ is_resource_row (option_copied row.entry) }
{
    match row {
        Some(row) => has_kind(row.content.item(), Kind::RESOURCE),
        None => false,
    }
}

/// Puts a row as it was saved here.
fn add_saved(
    writes: &mut Seq<Write>,
    alloc: Global,
    id: &Id,
    item: &Item,
    row: Option<&Row>,
) -> Result<(), AllocError>
    ensures { OnOk result
        (writes.new ≡ writes.old
        ++ Write.SetRow (saved_row id.now item.now (option_copied row.entry)) ∷ []) }
{
    let base = base_of(alloc, row)?;
    let content = Content::Plain(item.copy(alloc)?);
    writes.push(Write::SetRow(Row {
        id: *id,
        content,
        base,
        pending: true,
    }))
}

/// Puts a row as it is with its file.
fn add_synced(
    writes: &mut Seq<Write>,
    alloc: Global,
    id: &Id,
    content: &Content,
    bytes: &Bytes,
) -> Result<(), AllocError>
    ensures { OnOk result
        (writes.new ≡ writes.old ++ Write.SetRow (synced_row id.now content.now bytes.now) ∷ []) }
{
    let base = Some(bytes.copy(alloc)?);
    let content = content.copy(alloc)?;
    writes.push(Write::SetRow(Row {
        id: *id,
        content,
        base,
        pending: false,
    }))
}

/// Takes a row out, which joins the deletions if it was synced.
fn add_removal(writes: &mut Seq<Write>, id: &Id, row: Option<&Row>) -> Result<(), AllocError>
    ensures { OnOk result
        (writes.new ≡ writes.old ++ removal_writes id.now (option_copied row.entry)) }
{
    if is_synced(row) {
        let resource = is_resource(row);
        writes.push(Write::SetDeletion(Deletion { id: *id, resource }))?;
    }
    writes.push(Write::DropRow(*id))?;
    Ok(())
}

fn add_upload(
    writes: &mut Seq<Write>,
    alloc: Global,
    id: &Id,
    bytes: &Bytes,
    row: Option<&Row>,
) -> Result<(), AllocError>
    ensures { OnOk result
        (writes.new ≡ writes.old ++ upload_writes id.now bytes.now (option_copied row.entry)) }
{
    match row {
        Some(row) => add_synced(writes, alloc, id, &row.content, bytes),
        None => Ok(()),
    }
}

/// Puts a conflict note of this number.
fn add_note(
    writes: &mut Seq<Write>,
    alloc: Global,
    id: &Id,
    item: &Item,
    number: u64,
) -> Result<(), AllocError>
    ensures { OnOk result (writes.new ≡ writes.old ++ note_writes id.now item.now number) }
{
    writes.push(Write::AddConflict(ConflictNote {
        number,
        note: *id,
        item: item.copy(alloc)?,
    }))?;
    writes.push(Write::SetNext(number.saturating_add(1)))?;
    Ok(())
}

fn add_remote(
    writes: &mut Seq<Write>,
    alloc: Global,
    id: &Id,
    remote: &Option<(Bytes, Content)>,
) -> Result<(), AllocError>
    ensures { OnOk result (writes.new ≡ writes.old ++ remote_writes id.now remote.now) }
{
    match remote {
        Some((bytes, content)) => add_synced(writes, alloc, id, content, bytes),
        None => writes.push(Write::DropRow(*id)),
    }
}

fn add_conflict(
    writes: &mut Seq<Write>,
    alloc: Global,
    id: &Id,
    remote: &Option<(Bytes, Content)>,
    copies: bool,
    row: Option<&Row>,
    number: u64,
) -> Result<(), AllocError>
    ensures { OnOk result (writes.new
        ≡ writes.old
        ++ conflict_writes id.now remote.now copies (option_copied row.entry) number) }
{
    if let Some(row) = row {
        if copies {
            add_note(writes, alloc, id, row.content.item(), number)?;
        }
        add_remote(writes, alloc, id, remote)?;
    }
    Ok(())
}

/// Puts a note of a row whose folder is gone, and takes the row out.
fn add_moved(
    writes: &mut Seq<Write>,
    alloc: Global,
    id: &Id,
    row: Option<&Row>,
    number: u64,
) -> Result<(), AllocError>
    ensures { OnOk result (writes.new
        ≡ writes.old ++ conflict_writes id.now None true (option_copied row.entry) number) }
{
    add_conflict(writes, alloc, id, &None, true, row, number)
}

/// Puts a sealed row as it was opened.
fn add_open_row(
    writes: &mut Seq<Write>,
    alloc: Global,
    id: &Id,
    item: &Item,
    row: &Row,
) -> Result<(), AllocError>
    ensures { OnOk result (writes.new ≡ writes.old
        ++ open_writes id.now item.now (Some row.now)) }
{
    let base = row.base.copy(alloc)?;
    let content = Content::Plain(item.copy(alloc)?);
    writes.push(Write::SetRow(Row {
        id: *id,
        content,
        base,
        pending: row.pending,
    }))
}

fn add_opened(
    writes: &mut Seq<Write>,
    alloc: Global,
    id: &Id,
    item: &Item,
    row: Option<&Row>,
) -> Result<(), AllocError>
    ensures { OnOk result
        (writes.new ≡ writes.old ++ open_writes id.now item.now (option_copied row.entry)) }
{
    match row {
        Some(row) => add_open_row(writes, alloc, id, item, row),
        None => Ok(()),
    }
}

fn add_info(writes: &mut Seq<Write>, alloc: Global, info: &Info) -> Result<(), AllocError>
    ensures { OnOk result (writes.new ≡ writes.old ++ Write.SetInfo info.now ∷ []) }
{
    let info = info.copy(alloc)?;
    writes.push(Write::SetInfo(info))
}

fn add_context(writes: &mut Seq<Write>, alloc: Global, context: &Context) -> Result<(), AllocError>
    ensures { OnOk result (writes.new ≡ writes.old ++ Write.SetContext context.now ∷ []) }
{
    let context = context.copy(alloc)?;
    writes.push(Write::SetContext(context))
}

/// Adds the writes that make a change which needs no row.
fn add_alone(writes: &mut Seq<Write>, alloc: Global, change: &Change) -> Result<(), AllocError>
    requires { row_needed change.now ≡ None }
    ensures { (row : Option Row) (number : ℕ) →
        OnOk result (writes.new ≡ writes.old ++ writes_of change.now row number) }
{
    match change {
        Change::Named(client) => writes.push(Write::SetClient(*client)),
        Change::Dropped(id) => writes.push(Write::DropDeletion(*id)),
        Change::Taken(id, bytes, content) => add_synced(writes, alloc, id, content, bytes),
        Change::Gone(id) => writes.push(Write::DropRow(*id)),
        Change::Cleared(number) => writes.push(Write::DropConflict(*number)),
        Change::InfoIs(info) => add_info(writes, alloc, info),
        Change::ContextIs(context) => add_context(writes, alloc, context),
        Change::Saved(_, _)
        | Change::Removed(_)
        | Change::Uploaded(_, _)
        | Change::Conflict(_, _, _)
        | Change::Moved(_)
        | Change::Opened(_, _) => unreachable!(),
    }
}

/// Adds the writes that make a change to a row, from that row and the number that it needs.
fn add_to_row(
    writes: &mut Seq<Write>,
    alloc: Global,
    change: &Change,
    row: Option<&Row>,
    number: u64,
) -> Result<(), AllocError>
    requires { row_needed change.now ≢ None }
    ensures { OnOk result
        (writes.new ≡ writes.old ++ writes_of change.now (option_copied row.entry) number) }
{
    match change {
        Change::Saved(id, item) => add_saved(writes, alloc, id, item, row),
        Change::Removed(id) => add_removal(writes, id, row),
        Change::Uploaded(id, bytes) => add_upload(writes, alloc, id, bytes, row),
        Change::Conflict(id, remote, copies) => {
            add_conflict(writes, alloc, id, remote, *copies, row, number)
        }
        Change::Moved(id) => add_moved(writes, alloc, id, row, number),
        Change::Opened(id, item) => add_opened(writes, alloc, id, item, row),
        Change::Named(_)
        | Change::Dropped(_)
        | Change::Taken(_, _, _)
        | Change::Gone(_)
        | Change::Cleared(_)
        | Change::InfoIs(_)
        | Change::ContextIs(_) => unreachable!(),
    }
}

/// The writes that make a change, from the row and the number that it needs.
pub(crate) fn writes_of(
    alloc: Global,
    change: &Change,
    row: Option<&Row>,
    number: u64,
) -> Result<Seq<Write>, AllocError>
    ensures { IfOk result (λ writes.
        writes ≡ writes_of change.now (option_copied row.entry) number) }
{
    let mut writes = Seq::new(alloc);
    match row_needed(change) {
        Some(_) => add_to_row(&mut writes, alloc, change, row, number)?,
        None => add_alone(&mut writes, alloc, change)?,
    }
    Ok(writes)
}
