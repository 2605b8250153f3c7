//! How long a keeper in a file takes.

ghost use Rattle.local_store.specs.Sound.{IsAllowed};

use crate::notes::note_saved;
use crate::trouble::Trouble;
use jop_base::{Id, Text, let_go};
use keeper::Keeper;
use keeper_sqlite::keeper_at;
use local_store::Change;
use std::time::Instant;

/// Opens the file, which the first call does, and answers the microseconds that it took.
fn open<K: Keeper>(rt: &HostRuntime, keeper: &mut K) -> Result<u128, Trouble> {
    let id = Id::read(&[b'0'; 32]).ok_or(Trouble::Note)?;
    let start = Instant::now(rt)?;
    keeper.load_blob(rt.alloc(), &id)?;
    Ok(start.elapsed(rt)?.as_micros())
}

/// Saves the note of this number, and answers the microseconds that the keeper took.
fn save<K: Keeper>(rt: &HostRuntime, keeper: &mut K, number: u64) -> Result<u128, Trouble> {
    let change = note_saved(rt.alloc(), number)?;
    let took = commit(rt, keeper, &change);
    let_go(change);
    took
}

fn commit<K: Keeper>(rt: &HostRuntime, keeper: &mut K, change: &Change) -> Result<u128, Trouble>
    requires { IsAllowed change.now }
{
    let start = Instant::now(rt)?;
    keeper.commit(rt.alloc(), change)?;
    Ok(start.elapsed(rt)?.as_micros())
}

fn save_all<K: Keeper>(rt: &HostRuntime, keeper: &mut K, count: u64) -> Result<u128, Trouble> {
    let mut took = 0u128;
    for number in 1..=count {
        took = took.saturating_add(save(rt, keeper, number)?);
    }
    Ok(took)
}

fn time_notes<K: Keeper>(rt: &HostRuntime, keeper: &mut K, count: u64) -> Result<(), Trouble> {
    open(rt, keeper)?;
    let took = save_all(rt, keeper, count)?;
    Ok(println!(rt; "{took}")?)
}

/// Reads the tables, and answers the microseconds that the keeper took, and how many rows they have.
fn read<K: Keeper>(rt: &HostRuntime, keeper: &mut K) -> Result<(u128, usize), Trouble> {
    let start = Instant::now(rt)?;
    let tables = keeper.read(rt.alloc())?;
    let took = start.elapsed(rt);
    let rows = tables.rows.len();
    let_go(tables);
    Ok((took?.as_micros(), rows))
}

fn time_reading<K: Keeper>(rt: &HostRuntime, keeper: &mut K) -> Result<(), Trouble> {
    let opening = open(rt, keeper)?;
    let (reading, rows) = read(rt, keeper)?;
    Ok(println!(rt; "{opening} {reading} {rows}")?)
}

/// With a count, saves so many notes in a file, a change each, and prints the microseconds that the changes
/// took. Without one, prints those of opening a file, which is made if it isn't there, and of reading its
/// tables, and how many rows they have.
pub(crate) fn time_keeper(rt: &HostRuntime, file: &str, count: Option<u64>) -> Result<(), Trouble> {
    let path = Text::of(rt.alloc(), file)?;
    let mut keeper: Box<dyn Keeper> = Box::new(rt.alloc(), keeper_at(*rt, path))?;
    match count {
        Some(count) => time_notes(rt, &mut keeper, count),
        None => time_reading(rt, &mut keeper),
    }
}
