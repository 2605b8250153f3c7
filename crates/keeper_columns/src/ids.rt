ghost use Rattle.std.specs.Prelude.{◌≡◌, ℕ, List, All, IfOk};
ghost use Rattle.jop_base.specs.Id.{IsIdText};
ghost use Rattle.keeper_columns.specs.Columns.{id_digits};

use crate::record_err::RecordErr;
use jop_base::{Bytes, Id, Seq};
use std::alloc::{AllocError, Global};

/// The digits of ids, one after the other.
pub fn ids_text(alloc: Global, ids: &[Id]) -> Result<Bytes, AllocError>
    ensures { IfOk result (λ text. text ≡ id_digits ids.now) }
{
    let mut text = Bytes::new(alloc);
    for id in ids {
        text.append(&id.digits())?;
    }
    Ok(text)
}

/// The ids whose digits stand in a text, one after the other.
pub(crate) fn read_ids(alloc: Global, text: &[u8]) -> Result<Seq<Id>, RecordErr>
    ensures ok { IfOk result (λ ids. text.now ≡ id_digits ids) }
    ensures bad { result ≡ Err RecordErr.Bad → (ids : List (List ℕ)) → All IsIdText ids
        → ¬ (text.now ≡ id_digits ids) }
{
    let mut ids = Seq::new(alloc);
    let mut rest = text;
    'ids: while !rest.is_empty() {
        if rest.len() < 32 {
            return Err(RecordErr::Bad);
        }
        let (first, more) = rest.split_at(32);
        match Id::read(first) {
            Some(id) => ids.push(id)?,
            None => return Err(RecordErr::Bad),
        }
        rest = more;
    }
    Ok(ids)
}
