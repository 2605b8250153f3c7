ghost use Rattle.std.specs.Prelude.{◌≡◌, All, IfOk, decimal};
ghost use Rattle.local_store.specs.Sound.{IsSound, IsSoundRow};
ghost use Rattle.keeper_columns.specs.Columns.{id_digits};
ghost use Rattle.keeper_columns.specs.Holding.{IsSoundConflict};
ghost use Rattle.keeper_columns.specs.Meta.{HoldsMeta, HoldsNoClient, HoldsNoContext, HoldsNoTables};

use crate::ids::read_ids;
use crate::number::read_number;
use crate::record_err::RecordErr;
use crate::texts::info_of;
use jop_base::{Bytes, ClientId, Context, Id, Seq};
use local_store::{ConflictNote, Deletion, Row, Table, Tables};
use std::alloc::Global;

/// What a client knows of itself and its target, as a database holds it.
#[derive(Debug, Drop)]
pub struct MetaRecord {
    /// The digits of the client's id, if it has one.
    pub client: Option<Bytes>,
    /// The number of the next conflict note, in decimal.
    pub next_conflict: Bytes,
    /// The moment of the context, in decimal.
    pub moment: Bytes,
    /// The digits of the ids that were seen at that moment, one after the other.
    pub seen: Bytes,
    /// The text of the info.
    pub info: Bytes,
}

impl MetaRecord {
    /// The sound tables of what this record holds, and of these rows, deletions and conflict notes.
    #[tactic(auto, using(crate::proofs::Held::tables_sound))]
    pub fn tables(
        &self,
        alloc: Global,
        rows: Seq<Row>,
        deletions: Seq<Deletion>,
        conflicts: Seq<ConflictNote>,
    ) -> Result<Tables, RecordErr>
        requires rows { All IsSoundRow rows }
        requires conflicts { All IsSoundConflict conflicts }
        ensures holds { IfOk result (λ tables. HoldsMeta self.now tables) }
        ensures rows { IfOk result (λ tables. tables.rows ≡ rows) }
        ensures deletions { IfOk result (λ tables. tables.deletions ≡ deletions) }
        ensures conflicts { IfOk result (λ tables. tables.conflicts ≡ conflicts) }
        ensures sound { IfOk result (λ tables. IsSound tables) }
        ensures bad { result ≡ Err RecordErr.Bad → HoldsNoTables self.now rows deletions }
    {
        let Some(rows) = Table::from_seq(rows) else {
            return Err(RecordErr::Bad);
        };
        let Some(deletions) = Table::from_seq(deletions) else {
            return Err(RecordErr::Bad);
        };
        Ok(Tables {
            client: self.client()?,
            rows,
            deletions,
            conflicts,
            next_conflict: read_number(alloc, self.next_conflict.as_slice())?,
            context: self.context(alloc)?,
            info: info_of(alloc, &self.info)?,
        })
    }

    pub(crate) fn client(&self) -> Result<Option<ClientId>, RecordErr>
        ensures ok { IfOk result (λ client. self.now.client ≡ client) }
        ensures bad { result ≡ Err RecordErr.Bad → HoldsNoClient self.now }
    {
        let digits = match &self.client {
            Some(digits) => digits,
            None => return Ok(None),
        };
        match Id::read(digits.as_slice()) {
            Some(id) => Ok(Some(id)),
            None => Err(RecordErr::Bad),
        }
    }

    pub(crate) fn context(&self, alloc: Global) -> Result<Context, RecordErr>
        ensures moment { IfOk result (λ context. self.now.moment ≡ decimal context.moment) }
        ensures seen { IfOk result (λ context. self.now.seen ≡ id_digits context.seen) }
        ensures bad { result ≡ Err RecordErr.Bad → HoldsNoContext self.now }
    {
        let moment = read_number(alloc, self.moment.as_slice())?;
        let seen = read_ids(alloc, self.seen.as_slice())?;
        Ok(Context { moment, seen })
    }
}
