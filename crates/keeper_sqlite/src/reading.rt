//! What is read from the database.

ghost use Rattle.std.specs.Prelude.{◌≡◌, All, IfOk, IfSome, Some, ⊤};
ghost use Rattle.std.specs.List.Sorted.{IsPermutation};
ghost use Rattle.local_store.specs.Sound.{IsSound, IsSoundRow};
ghost use Rattle.keeper_sqlite.specs.Answers.{BlobShown, KeyShown, MetaShown, RowShown, RowsShown, TablesShown};

use crate::database::Database;
use crate::query::Query;
use crate::values::text;
use crate::work::Work;
use jop_base::{Bytes, Id, Seq};
use keeper_columns::MetaRecord;
use keeper_file::Trouble;
use local_store::{ConflictNote, Deletion, Row, Tables};
use std::alloc::Global;

/// The rows in the order of their ids. For that order the database would look each row up, all over
/// its file.
#[tactic(auto, using(crate::proofs::Found::sound_moved))]
fn in_order(rows: Seq<Row>) -> Seq<Row>
    requires { All IsSoundRow rows }
    ensures sound { All IsSoundRow result }
    ensures sorted { IsPermutation rows result }
{
    let mut rows = rows.into_vec();
    rows.sort_unstable_by_key(|row| row.id);
    Seq::from_vec(rows)
}

/// All rows.
#[tactic(auto, using(crate::proofs::Standing::rows_shown))]
fn rows<D: Database>(alloc: Global, database: &mut D) -> Result<Seq<Row>, Trouble>
    ensures shown { IfOk result (λ rows. RowsShown (D.state database.old).shows rows) }
    ensures sound { IfOk result (λ rows. All IsSoundRow rows) }
    ensures same { D.state database.new ≡ D.state database.old }
{
    let found = database.all::<Row>(alloc, Query::AllRows)?;
    Ok(in_order(found))
}

/// The value of a key, if it is there.
fn value_at<D: Database>(
    alloc: Global,
    database: &mut D,
    key: &str,
) -> Result<Option<Bytes>, Trouble>
    ensures shown { IfOk result (λ value. KeyShown (D.state database.old).shows key.now value) }
    ensures same { D.state database.new ≡ D.state database.old }
{
    let value = database.first::<Bytes>(alloc, Query::Meta, &[text(key)])?;
    Ok(value)
}

/// The value of a key that has to be there.
fn value_of<D: Database>(alloc: Global, database: &mut D, key: &str) -> Result<Bytes, Trouble>
    ensures shown { IfOk result
        (λ value. KeyShown (D.state database.old).shows key.now (Some value)) }
    ensures same { D.state database.new ≡ D.state database.old }
{
    match value_at(alloc, database, key)? {
        Some(value) => Ok(value),
        None => Err(Trouble::Fault),
    }
}

fn meta<D: Database>(alloc: Global, database: &mut D) -> Result<MetaRecord, Trouble>
    ensures shown { IfOk result (λ meta. MetaShown (D.state database.old).shows meta) }
    ensures same { D.state database.new ≡ D.state database.old }
{
    Ok(MetaRecord {
        client: value_at(alloc, database, "client")?,
        next_conflict: value_of(alloc, database, "next_conflict")?,
        moment: value_of(alloc, database, "moment")?,
        seen: value_of(alloc, database, "seen")?,
        info: value_of(alloc, database, "info")?,
    })
}

fn tables<D: Database>(alloc: Global, database: &mut D) -> Result<Tables, Trouble>
    ensures shown { IfOk result (λ tables. TablesShown (D.state database.old).shows tables) }
    ensures sound { IfOk result (λ tables. IsSound tables) }
    ensures same { D.state database.new ≡ D.state database.old }
{
    let rows = rows(alloc, database)?;
    let deletions = database.all::<Deletion>(alloc, Query::AllDeletions)?;
    let conflicts = database.all::<ConflictNote>(alloc, Query::AllConflicts)?;
    let meta = meta(alloc, database)?;
    let tables = meta.tables(alloc, rows, deletions, conflicts)?;
    Ok(tables)
}

/// Reads all tables.
#[derive(Drop)]
pub(crate) struct AllTables;

impl Work for AllTables {
    type Answer = Tables;

    ghost is_fit = { λ _. ⊤ };

    ghost answers = { λ _ old tables new.
        IsSound tables × TablesShown old.shows tables × (new ≡ old) };

    #[tactic(auto, using(crate::proofs::Speaking::unsaid))]
    fn done<D: Database>(&self, alloc: Global, database: &mut D) -> Result<Tables, Trouble> {
        let tables = tables(alloc, database)?;
        Ok(tables)
    }
}

/// Reads a row.
#[derive(Drop)]
pub(crate) struct RowOf<'a> {
    pub id: &'a Id,
}

impl Work for RowOf<'_> {
    type Answer = Option<Row>;

    ghost is_fit = { λ _. ⊤ };

    ghost answers = { λ work old row new.
        IfSome row IsSoundRow × RowShown old.shows work.id.now row × (new ≡ old) };

    #[tactic(auto, using(crate::proofs::Speaking::unsaid))]
    fn done<D: Database>(&self, alloc: Global, database: &mut D) -> Result<Option<Row>, Trouble> {
        let key = [text(self.id.as_str())];
        let row = database.first::<Row>(alloc, Query::OneRow, &key)?;
        Ok(row)
    }
}

/// Reads the value of a key that has to be there.
#[derive(Drop)]
pub(crate) struct ValueOf<'a> {
    pub key: &'a str,
}

impl Work for ValueOf<'_> {
    type Answer = Bytes;

    ghost is_fit = { λ _. ⊤ };

    ghost answers = { λ work old value new.
        KeyShown old.shows work.key.now (Some value) × (new ≡ old) };

    #[tactic(auto, using(crate::proofs::Speaking::unsaid))]
    fn done<D: Database>(&self, alloc: Global, database: &mut D) -> Result<Bytes, Trouble> {
        let value = value_of(alloc, database, self.key)?;
        Ok(value)
    }
}

/// Reads the bytes of a resource.
#[derive(Drop)]
pub(crate) struct BlobOf<'a> {
    pub id: &'a Id,
}

impl Work for BlobOf<'_> {
    type Answer = Option<Bytes>;

    ghost is_fit = { λ _. ⊤ };

    ghost answers = { λ work old bytes new.
        BlobShown old.shows work.id.now bytes × (new ≡ old) };

    #[tactic(auto, using(crate::proofs::Speaking::unsaid))]
    fn done<D: Database>(&self, alloc: Global, database: &mut D) -> Result<Option<Bytes>, Trouble> {
        let key = [text(self.id.as_str())];
        let bytes = database.first::<Bytes>(alloc, Query::OneBlob, &key)?;
        Ok(bytes)
    }
}
