ghost use Rattle.std.specs.Prelude.{◌≡◌};
ghost use Rattle.local_store.specs.Rows.{has_kind, item_of};

use crate::row::Row;
use item_kinds::{Kind, kind_of};
use item_text::Item;

/// Whether the item is of this kind.
pub fn has_kind(item: &Item, kind: Kind) -> bool
    ensures { result ≡ has_kind kind item.now }
{
    match kind_of(item) {
        Some(own) => own.0 == kind.0,
        None => false,
    }
}

/// Whether the row is a folder, sealed or not.
pub fn is_folder(row: &Row) -> bool
    ensures { result ≡ has_kind Kind.FOLDER (item_of row.now.content) }
{
    has_kind(row.content.item(), Kind::FOLDER)
}
