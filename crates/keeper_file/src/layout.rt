//! What stands in an open database.

ghost use Rattle.std.specs.Prelude.{pos, ◌≡◌, ◌↔◌};

use crate::tables::{COUNT_THINGS, TABLES};
use crate::trouble::Trouble;
use sqlite::{Alter, Connection, params};

/// What stands in a database, but for what it makes for itself.
#[derive(Clone, Copy, Debug, PartialEq, Eq)]
pub enum Layout {
    /// Nothing: it is new.
    Blank,
    /// The tables, and nothing else.
    Tables,
    /// Anything else.
    Foreign,
}

/// The layout of so many things, of which so many are of the five tables.
fn layout_with(things: i64, tables: i64) -> Layout
    ensures blank { (result ≡ Layout.Blank) ↔ (things ≡ pos 0) }
    ensures tables { (result ≡ Layout.Tables) ↔ ((things ≡ pos 5) × (tables ≡ pos 5)) }
{
    if things == 0 {
        return Layout::Blank;
    }
    if things == 5 && tables == 5 {
        return Layout::Tables;
    }
    Layout::Foreign
}

/// What stands in an open database, by its own list of what it holds.
pub fn layout_of<S: Alter>(database: &mut Connection<S>) -> Result<Layout, Trouble> {
    let [meta, rows, deletions, conflicts, blobs] = TABLES;
    let counted = database.query_row(
        COUNT_THINGS,
        params![meta, rows, deletions, conflicts, blobs],
    )?;
    Ok(layout_with(counted.get(0)?, counted.get(1)?))
}
