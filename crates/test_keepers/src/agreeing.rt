//! Whether two stores hold the same.

use jop_base::Id;
use keeper::{Keeper, KeeperErr};
use keeper_records::RecordStore;
use local_store::{Row, Tables};
use std::alloc::{AllocError, Global};

/// Tables, as a text.
pub(crate) fn tables_text(alloc: Global, tables: &Tables) -> Result<String, AllocError> {
    format!(in alloc; "{tables:?}")
}

fn row_text(alloc: Global, row: &Option<Row>) -> Result<String, AllocError> {
    format!(in alloc; "{row:?}")
}

/// The tables of a keeper, as a text.
pub(crate) fn told<K: Keeper>(alloc: Global, keeper: &mut K) -> Result<String, KeeperErr> {
    let tables = keeper.read(alloc)?;
    Ok(tables_text(alloc, &tables)?)
}

fn all_told<S: RecordStore>(alloc: Global, store: &mut S) -> Result<String, KeeperErr> {
    let tables = store.all(alloc)?;
    Ok(tables_text(alloc, &tables)?)
}

fn row_told<S: RecordStore>(alloc: Global, store: &mut S, id: &Id) -> Result<String, KeeperErr> {
    let row = store.row(alloc, id)?;
    Ok(row_text(alloc, &row)?)
}

fn has_same_tables<S: RecordStore, T: RecordStore>(
    alloc: Global,
    store: &mut S,
    other: &mut T,
) -> Result<bool, KeeperErr> {
    let told = all_told(alloc, store)?;
    Ok(all_told(alloc, other)? == told)
}

fn has_same_row<S: RecordStore, T: RecordStore>(
    alloc: Global,
    store: &mut S,
    other: &mut T,
    id: &Id,
) -> Result<bool, KeeperErr> {
    let told = row_told(alloc, store, id)?;
    Ok(row_told(alloc, other, id)? == told)
}

/// Whether two stores have the same tables, row of this id, and next number.
pub(crate) fn are_same<S: RecordStore, T: RecordStore>(
    alloc: Global,
    store: &mut S,
    other: &mut T,
    id: &Id,
) -> Result<bool, KeeperErr> {
    Ok(
        has_same_tables(alloc, store, other)?
            && has_same_row(alloc, store, other, id)?
            && store.next_conflict(alloc)? == other.next_conflict(alloc)?,
    )
}

/// Whether two stores have the same bytes of a resource.
pub(crate) fn has_same_blob<S: RecordStore, T: RecordStore>(
    alloc: Global,
    store: &mut S,
    other: &mut T,
    id: &Id,
) -> Result<bool, KeeperErr> {
    let blob = store.load_blob(alloc, id)?;
    Ok(other.load_blob(alloc, id)? == blob)
}
