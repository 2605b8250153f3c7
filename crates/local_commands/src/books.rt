ghost use Rattle.std.specs.Prelude.{◌≡◌, length};
ghost use Rattle.local_store.specs.Tables.{row_at};
ghost use Rattle.local_commands.specs.Books.{ChecksBook, is_within, parent_at};
ghost use Rattle.local_commands.specs.Stages.{ChecksOr};

use crate::local_err::LocalErr;
use item_kinds::{Kind, parent_of};
use jop_base::Id;
use local_changes::has_row;
use local_store::Tables;

/// Refuses a notebook that is asked for and isn't there: `NotFound` exactly if one is given and no row
/// of its id is a notebook.
pub(crate) fn check_book(tables: &Tables, book: &Option<Id>) -> Result<(), LocalErr>
    ensures { ChecksOr (ChecksBook tables.now book.now) result }
{
    match book {
        Some(book) if !has_row(tables, book, Kind::FOLDER) => Err(LocalErr::NotFound(*book)),
        _ => Ok(()),
    }
}

/// The notebook that the row of an id says it is in, if it says one.
fn parent_at(tables: &Tables, id: &Id) -> Option<Id>
    ensures { result ≡ parent_at (row_at tables.now id.now) }
{
    match tables.rows.at(id) {
        Some(row) => parent_of(row.content.item()),
        None => None,
    }
}

/// Whether a notebook is this one, or stands below it. Notebooks that others have put into each other end the
/// search, as they end the number of rows.
pub(crate) fn is_within(tables: &Tables, id: &Id, book: &Id) -> bool
    ensures { result ≡ is_within (length tables.now.rows) tables.now id.now book.now }
{
    let mut above = *book;
    let mut left = tables.rows.len();
    while left > 0 && above != *id {
        match parent_at(tables, &above) {
            Some(parent) => above = parent,
            None => return false,
        }
        left -= 1;
    }
    above == *id
}
