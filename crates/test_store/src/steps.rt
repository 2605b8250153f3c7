ghost use Rattle.std.specs.Prelude.{◌≤◌, IfOk};
ghost use Rattle.jop_base.specs.Times.{last_time};
ghost use Rattle.local_store.specs.Sound.{IsAllowed, IsSound};

use crate::named::{bytes, id, line};
use jop_base::{Text, let_go};
use local_changes::{StoreErr, edited, new_book, new_note, removed};
use local_store::{Change, Tables};
use std::alloc::{AllocError, Global};

/// What happens to a notebook `b..` and to a note `a..` in it.
#[derive(Clone, Copy)]
pub enum Step {
    MakeBook,
    MakeNote,
    Upload,
    Edit,
    Remove,
    Drop,
}

fn book(alloc: Global, tables: &Tables, now: u64) -> Result<Change, StoreErr>
    requires { now ≤ last_time }
    ensures { IfOk result (λ change. IsAllowed change) }
{
    let title = line(alloc, "Home")?;
    new_book(alloc, tables, id(b'b'), None, title, now)
}

fn note(alloc: Global, tables: &Tables, now: u64) -> Result<Change, StoreErr>
    requires { now ≤ last_time }
    ensures { IfOk result (λ change. IsAllowed change) }
{
    let title = line(alloc, "Milk")?;
    let body = Text::of(alloc, "two")?;
    new_note(alloc, tables, id(b'a'), id(b'b'), title, body, now)
}

fn uploaded(alloc: Global) -> Result<Change, AllocError>
    ensures { IfOk result (λ change. IsAllowed change) }
{
    let file = bytes(alloc, b"file")?;
    Ok(Change::Uploaded(id(b'a'), file))
}

fn edit(alloc: Global, tables: &Tables, now: u64) -> Result<Change, StoreErr>
    requires sound { IsSound tables.now }
    requires time { now ≤ last_time }
    ensures { IfOk result (λ change. IsAllowed change) }
{
    let body = Text::of(alloc, "three")?;
    edited(alloc, tables, id(b'a'), None, body, now)
}

/// The change of a step that is taken at this time.
pub fn change(alloc: Global, tables: &Tables, step: Step, now: u64) -> Result<Change, StoreErr>
    requires sound { IsSound tables.now }
    requires time { now ≤ last_time }
    ensures { IfOk result (λ change. IsAllowed change) }
{
    match step {
        Step::MakeBook => book(alloc, tables, now),
        Step::MakeNote => note(alloc, tables, now),
        Step::Upload => Ok(uploaded(alloc)?),
        Step::Edit => edit(alloc, tables, now),
        Step::Remove => removed(tables, id(b'a')),
        Step::Drop => Ok(Change::Dropped(id(b'a'))),
    }
}

fn apply(alloc: Global, tables: &mut Tables, change: Change) -> Result<(), AllocError>
    requires sound { IsSound tables.old }
    requires allowed { IsAllowed change }
    ensures { IsSound tables.new }
{
    let applied = tables.apply(alloc, &change);
    let_go(change);
    applied
}

/// Takes a step at this time.
pub fn take(alloc: Global, tables: &mut Tables, step: Step, now: u64) -> Result<(), StoreErr>
    requires sound { IsSound tables.old }
    requires time { now ≤ last_time }
    ensures { IsSound tables.new }
{
    let change = change(alloc, tables, step, now)?;
    Ok(apply(alloc, tables, change)?)
}

/// The notebook and the note, made at this time.
pub fn home(alloc: Global, now: u64) -> Result<Tables, StoreErr>
    requires { now ≤ last_time }
    ensures { IfOk result (λ tables. IsSound tables) }
{
    let mut tables = Tables::new(alloc);
    take(alloc, &mut tables, Step::MakeBook, now)?;
    take(alloc, &mut tables, Step::MakeNote, now)?;
    Ok(tables)
}
