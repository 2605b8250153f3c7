ghost use Rattle.std.specs.Prelude.{◌≡◌, IfOk};
ghost use Rattle.keeper_columns.specs.Holding.{HoldsDeletion};

use crate::flag::{flag, read_flag};
use crate::record::Record;
use crate::record_err::RecordErr;
use jop_base::{Id, Text};
use local_store::Deletion;
use std::alloc::{AllocError, Global};

/// A deletion as a database holds it.
#[derive(Debug, Drop)]
pub struct DeletionRecord {
    pub id: Text,
    /// 1 if the item was a resource, and else 0.
    pub resource: i64,
}

impl DeletionRecord {
    /// The record of a deletion.
    pub fn of(alloc: Global, deletion: &Deletion) -> Result<DeletionRecord, AllocError>
        ensures { IfOk result (λ made. HoldsDeletion made deletion.now) }
    {
        Ok(DeletionRecord {
            id: Text::of(alloc, deletion.id.as_str())?,
            resource: flag(deletion.resource),
        })
    }
}

impl Record for DeletionRecord {
    ghost use Rattle.keeper_columns.specs.Holding.{HoldsDeletion, IsSoundDeletion};

    type Held = Deletion;

    ghost holds = { HoldsDeletion };

    ghost is_sound = { IsSoundDeletion };

    fn read(&self, _alloc: Global) -> Result<Deletion, RecordErr> {
        match (Id::read(self.id.as_slice()), read_flag(self.resource)) {
            (Some(id), Some(resource)) => Ok(Deletion { id, resource }),
            _ => Err(RecordErr::Bad),
        }
    }
}
