ghost use Rattle.std.specs.Prelude.{◌≡◌};
ghost use Rattle.item_text.specs.Props.{has_value};
ghost use Rattle.local_changes.specs.Lookup.{is_row_of};
ghost use Rattle.local_store.specs.Tables.{row_at};

use item_kinds::Kind;
use item_text::{Item, prop};
use jop_base::Id;
use local_store::{Tables, has_kind};

/// Whether there is a row of this id, and it is of this kind.
pub fn has_row(tables: &Tables, id: &Id, kind: Kind) -> bool
    ensures { result ≡ is_row_of kind (row_at tables.now id.now) }
{
    match tables.rows.at(id) {
        Some(row) => has_kind(row.content.item(), kind),
        None => false,
    }
}

/// Whether the topmost value of the key is this one.
pub(crate) fn has_value(item: &Item, key: &[u8], value: &[u8]) -> bool
    ensures { result ≡ has_value key.now value.now item.now.props }
{
    match prop(item, key) {
        Some(own) => own.as_slice() == value,
        None => false,
    }
}
