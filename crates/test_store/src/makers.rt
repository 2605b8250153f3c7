ghost use Rattle.std.specs.Prelude.{◌≤◌, IfOk};
ghost use Rattle.jop_base.specs.Times.{last_time};
ghost use Rattle.local_store.specs.Sound.{IsSound};

use crate::named::{NOW, id, line};
use crate::steps::{Step, home, take};
use item_kinds::updated_of;
use jop_base::{Id, MAX_TIME, Seq, Text};
use local_changes::{ITEM_LIMIT, StoreErr, edited, free_id, new_note, removed, tagged};
use local_store::{Change, Tables};
use std::alloc::{AllocError, Global};
use std::process::Abort;
use std::test::Fail;

/// Why a change isn't made.
fn cause(answer: Result<Change, StoreErr>) -> Option<StoreErr> {
    answer.err()
}

/// Why a new body for the note `a..` is refused.
fn refused_edit(alloc: Global, tables: &Tables, body: Text) -> Option<StoreErr>
    requires { IsSound tables.now }
{
    cause(edited(alloc, tables, id(b'a'), None, body, NOW))
}

/// Why the note, last changed at the end of all time, isn't changed again.
fn refused_at_the_end(alloc: Global) -> Result<Option<StoreErr>, StoreErr> {
    let tables = home(alloc, MAX_TIME)?;
    let body = Text::of(alloc, "three")?;
    Ok(refused_edit(alloc, &tables, body))
}

/// Why a body of two mebibytes is refused.
fn refused_length(alloc: Global, tables: &Tables) -> Result<Option<StoreErr>, AllocError>
    requires { IsSound tables.now }
{
    let body = "x".repeat(alloc, 2_097_152)?;
    let body = Text::of(alloc, body.as_str())?;
    Ok(refused_edit(alloc, tables, body))
}

/// Why a note isn't put into a note.
fn refused_note(alloc: Global, tables: &Tables) -> Result<Option<StoreErr>, AllocError> {
    let title = line(alloc, "X")?;
    let body = Text::new(alloc);
    Ok(cause(new_note(alloc, tables, id(b'9'), id(b'a'), title, body, NOW)))
}

/// Whether the item is said to be too large, with a length that is.
fn is_too_large(cause: Option<StoreErr>) -> bool {
    match cause {
        Some(StoreErr::TooLarge(len)) => len > ITEM_LIMIT,
        _ => false,
    }
}

fn be_refused(rt: &impl Abort, alloc: Global, tables: &Tables) -> Result<(), Fail>
    requires { IsSound tables.now }
{
    let (note, book, none) = (id(b'a'), id(b'b'), id(b'9'));
    assert!(rt; refused_note(alloc, tables) == Ok(Some(StoreErr::NotFound(note))));
    assert!(rt; cause(removed(tables, none)) == Some(StoreErr::NotFound(none)));
    assert!(rt; cause(removed(tables, book)) == Some(StoreErr::NotEmpty(book)));
    assert!(rt; is_too_large(refused_length(alloc, tables)?));
    assert!(rt; refused_at_the_end(alloc) == Ok(Some(StoreErr::TimeEnd(note))));
    Ok(())
}

#[test]
fn a_refusal_names_its_cause(rt: HostRuntime) -> Result<(), Fail> {
    let tables = home(rt.alloc(), NOW)?;
    be_refused(&rt, rt.alloc(), &tables)
}

/// When the note was last changed, in milliseconds since 1970.
fn last_changed(tables: &Tables) -> Option<u64> {
    let row = tables.rows.at(&id(b'a'))?;
    Some(updated_of(row.content.item()))
}

/// Edits the note at this time. When it counts as changed.
fn edited_at(alloc: Global, tables: &mut Tables, now: u64) -> Result<Option<u64>, StoreErr>
    requires sound { IsSound tables.old }
    requires time { now ≤ last_time }
{
    take(alloc, tables, Step::Edit, now)?;
    Ok(last_changed(tables))
}

#[test]
fn an_edit_has_a_later_time_and_a_new_item_a_later_id(rt: HostRuntime) -> Result<(), Fail> {
    let alloc = rt.alloc();
    let mut tables = home(alloc, NOW)?;
    let note = id(b'a');
    assert!(rt; free_id(&tables, note) == note.after());
    assert!(rt; edited_at(alloc, &mut tables, NOW - 5) == Ok(Some(NOW + 1)));
    Ok(())
}

fn apply_all(alloc: Global, tables: &mut Tables, changes: &Seq<Change>) -> Result<(), AllocError> {
    for change in changes.as_slice() {
        tables.apply(alloc, change)?;
    }
    Ok(())
}

/// Tags the note. How many changes that takes.
fn tag(alloc: Global, tables: &mut Tables, tag: Id, link: Id) -> Result<usize, StoreErr> {
    let title = line(alloc, "food")?;
    let changes = tagged(alloc, tables, tag, link, id(b'a'), title, NOW)?;
    apply_all(alloc, tables, &changes)?;
    Ok(changes.len())
}

#[test]
fn a_tag_is_made_once(rt: HostRuntime) -> Result<(), Fail> {
    let alloc = rt.alloc();
    let mut tables = home(alloc, NOW)?;
    assert!(rt; tag(alloc, &mut tables, id(b'c'), id(b'd')) == Ok(2));
    assert!(rt; tag(alloc, &mut tables, id(b'e'), id(b'f')) == Ok(0));
    assert!(rt; tables.rows.len() == 4);
    Ok(())
}
