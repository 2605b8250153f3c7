ghost use Rattle.std.specs.Prelude.{◌≡◌, IfOk, IsTrue, Some, codes};
ghost use Rattle.item_kinds.specs.Kinds.{GivesId};
ghost use Rattle.item_text.specs.Grammar.{written};
ghost use Rattle.item_text.specs.Valid.{IsItem};
ghost use Rattle.local_store.specs.declared.row.Row.{Row};
ghost use Rattle.local_store.specs.Rows.{item_of};
ghost use Rattle.local_store.specs.Sound.{IsSoundRow};
ghost use Rattle.keeper_columns.specs.Columns.{text_beside};
ghost use Rattle.keeper_columns.specs.Holding.{HoldsRow, is_sealed_content};

use crate::flag::{flag, read_flag};
use crate::record::Record;
use crate::record_err::RecordErr;
use crate::texts::{item_of, item_text};
use item_kinds::{id_of, is_sealed};
use item_text::Item;
use jop_base::{Bytes, Copied, Id, Text};
use local_store::{Content, Row};
use std::alloc::{AllocError, Global};

/// A row as a database holds it.
#[derive(Debug, Drop)]
pub struct RowRecord {
    pub id: Text,
    /// 1 if the item is sealed, and else 0.
    pub sealed: i64,
    /// The text of the item. Of records that an earlier program wrote it may be empty: then the base is that text.
    pub content: Bytes,
    pub base: Option<Bytes>,
    /// 1 if the row is to be uploaded, and else 0.
    pub pending: i64,
}

fn is_sealed_content(content: &Content) -> bool
    ensures { result ≡ is_sealed_content content.now }
{
    match content {
        Content::Plain(_) => false,
        Content::Sealed(_) => true,
    }
}

fn content_of(item: Item, sealed: bool) -> Content
    ensures item { item_of result ≡ item }
    ensures sealed { is_sealed_content result ≡ sealed }
{
    if sealed {
        Content::Sealed(item)
    } else {
        Content::Plain(item)
    }
}

/// Whether the item has this id.
fn has_id(item: &Item, id: &Id) -> bool
    ensures has { IsTrue result → GivesId (codes "id") item.now.props (Some id.now) }
    ensures has_not { GivesId (codes "id") item.now.props (Some id.now) → IsTrue result }
{
    id.prove_valid();
    match id_of(item) {
        Some(own) => own == *id,
        None => false,
    }
}

fn is_sound(row: &Row) -> bool
    requires { IsItem (item_of row.now.content) }
    ensures sound { IsTrue result → IsSoundRow row.now }
    ensures unsound { IsSoundRow row.now → IsTrue result }
{
    match &row.content {
        Content::Plain(item) => has_id(item, &row.id) && !is_sealed(item),
        Content::Sealed(item) => has_id(item, &row.id) && is_sealed(item) && !row.pending,
    }
}

impl RowRecord {
    /// The record of a row.
    pub fn of(alloc: Global, row: &Row) -> Result<RowRecord, AllocError>
        requires { IsSoundRow row.now }
        ensures holds { IfOk result (λ made. HoldsRow made row.now) }
        ensures text { IfOk result (λ made. made.content ≡ written (item_of row.now.content)) }
    {
        Ok(RowRecord {
            id: Text::of(alloc, row.id.as_str())?,
            sealed: flag(is_sealed_content(&row.content)),
            content: item_text(alloc, row.content.item())?,
            base: row.base.copy(alloc)?,
            pending: flag(row.pending),
        })
    }

    /// The text of the record's item.
    fn text(&self) -> &Bytes
        ensures { result.now ≡ text_beside self.now.content self.now.base }
    {
        match &self.base {
            Some(base) if self.content.is_empty() => base,
            _ => &self.content,
        }
    }

    /// The row that the record holds, sound or not.
    fn row(&self, alloc: Global) -> Result<Row, RecordErr>
        ensures holds { IfOk result (λ row. HoldsRow self.now row) }
        ensures item { IfOk result (λ row. IsItem (item_of row.content)) }
        ensures bad { result ≡ Err RecordErr.Bad
            → (row : Row) → IsSoundRow row → ¬ HoldsRow self.now row }
    {
        let id = match Id::read(self.id.as_slice()) {
            Some(id) => id,
            None => return Err(RecordErr::Bad),
        };
        let (sealed, pending) = match (read_flag(self.sealed), read_flag(self.pending)) {
            (Some(sealed), Some(pending)) => (sealed, pending),
            _ => return Err(RecordErr::Bad),
        };
        let item = item_of(alloc, self.text())?;
        Ok(Row {
            id,
            content: content_of(item, sealed),
            base: self.base.copy(alloc)?,
            pending,
        })
    }
}

impl Record for RowRecord {
    ghost use Rattle.local_store.specs.Sound.{IsSoundRow};
    ghost use Rattle.keeper_columns.specs.Holding.{HoldsRow};

    type Held = Row;

    ghost holds = { HoldsRow };

    ghost is_sound = { IsSoundRow };

    #[tactic(auto, using(crate::proofs::Held::one_row))]
    fn read(&self, alloc: Global) -> Result<Row, RecordErr> {
        let row = self.row(alloc)?;
        if !is_sound(&row) {
            return Err(RecordErr::Bad);
        }
        Ok(row)
    }
}
