ghost use Rattle.std.specs.Prelude.{◌≡◌, IfOk};
ghost use Rattle.std.specs.List.{list_any};
ghost use Rattle.local_changes.specs.Makers.{is_child, removed};
ghost use Rattle.local_store.specs.Sound.{IsAllowed};

use crate::lookup::has_value;
use crate::store_err::StoreErr;
use item_kinds::Kind;
use jop_base::Id;
use local_store::{Change, Row, Tables, has_kind};

/// Whether the row is a note or a notebook in this notebook.
fn is_child(row: &Row, book: &Id) -> bool
    ensures { result ≡ is_child book.now row.now }
{
    let item = row.content.item();
    (has_kind(item, Kind::NOTE) || has_kind(item, Kind::FOLDER))
        && has_value(item, b"parent_id", book.as_str().as_bytes())
}

fn has_child(rows: &[Row], book: &Id) -> bool
    ensures { result ≡ list_any (is_child book.now) rows.now }
{
    for row in rows {
        if is_child(row, book) {
            return true;
        }
    }
    false
}

/// The removal of a row. `NotFound` exactly if there is none of this id, and `NotEmpty` exactly if it is a notebook in
/// which notes or notebooks are. It takes no memory.
pub fn removed(tables: &Tables, id: Id) -> Result<Change, StoreErr>
    ensures answer { result ≡ removed tables.now id }
    ensures allowed { IfOk result (λ change. IsAllowed change) }
{
    let Some(row) = tables.rows.at(&id) else {
        return Err(StoreErr::NotFound(id));
    };
    if has_kind(row.content.item(), Kind::FOLDER) && has_child(tables.rows.as_slice(), &id) {
        return Err(StoreErr::NotEmpty(id));
    }
    Ok(Change::Removed(id))
}
