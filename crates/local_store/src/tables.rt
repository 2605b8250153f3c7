ghost use Rattle.std.specs.Prelude.{◌≡◌, OnOk, OnErr};
ghost use Rattle.local_store.specs.Changing.{after};
ghost use Rattle.local_store.specs.Sound.{IsSound, IsAllowed};
ghost use Rattle.local_store.specs.Tables.{new_tables};

use crate::change::Change;
use crate::conflict_note::ConflictNote;
use crate::deletion::Deletion;
use crate::row::Row;
use crate::table::Table;
use jop_base::{ClientId, Context, Copied, Seq};
use std::alloc::{AllocError, Global};
use sync_info::Info;

/// What a client has and knows. Rows and deletions stand in the order of their ids, each id once.
#[derive(Debug, Drop)]
pub struct Tables {
    /// Who the client is on all targets. None until it is needed.
    pub client: Option<ClientId>,
    pub rows: Table<Row>,
    pub deletions: Table<Deletion>,
    /// In the order in which they were made.
    pub conflicts: Seq<ConflictNote>,
    /// The number of the next conflict note.
    pub next_conflict: u64,
    pub context: Context,
    pub info: Info,
}

impl Copied for Tables {
    fn copy(&self, alloc: Global) -> Result<Tables, AllocError> {
        Ok(Tables {
            client: self.client,
            rows: self.rows.copy(alloc)?,
            deletions: self.deletions.copy(alloc)?,
            conflicts: self.conflicts.copy(alloc)?,
            next_conflict: self.next_conflict,
            context: self.context.copy(alloc)?,
            info: self.info.copy(alloc)?,
        })
    }
}

impl Tables {
    /// No items, and the info of a new target of version 3.
    #[tactic(auto, using(crate::proofs::Keeping::new_sound))]
    pub fn new(alloc: Global) -> Tables
        ensures tables { result ≡ new_tables }
        ensures sound { IsSound result }
    {
        Tables {
            client: None,
            rows: Table::new(alloc),
            deletions: Table::new(alloc),
            conflicts: Seq::new(alloc),
            next_conflict: 1,
            context: Context::new(alloc),
            info: Info::new(alloc, 3),
        }
    }

    /// Makes a change or, out of memory, nothing.
    #[tactic(auto, using(crate::proofs::Keeping::applied_sound))]
    pub fn apply(&mut self, alloc: Global, change: &Change) -> Result<(), AllocError>
        ensures ok { OnOk result (self.new ≡ after self.old change.now) }
        ensures err { OnErr result (self.new ≡ self.old) }
        ensures sound { IsSound self.old → IsAllowed change.now → IsSound self.new }
    {
        self.change(alloc, change)
    }

    /// Makes a change or, out of memory, nothing.
    fn change(&mut self, alloc: Global, change: &Change) -> Result<(), AllocError>
        ensures ok { OnOk result (self.new ≡ after self.old change.now) }
        ensures err { OnErr result (self.new ≡ self.old) }
    {
        match change {
            Change::Named(client) => {
                self.client = Some(*client);
                Ok(())
            }
            Change::Saved(id, item) => self.saved(alloc, id, item),
            Change::Removed(id) => self.removed(id),
            Change::Uploaded(id, bytes) => self.uploaded(alloc, id, bytes),
            Change::Dropped(id) => {
                self.deletions.cut(id);
                Ok(())
            }
            Change::Taken(id, bytes, content) => self.taken(alloc, id, bytes, content),
            Change::Conflict(id, remote, copies) => self.conflict(alloc, id, remote, *copies),
            Change::Moved(id) => self.conflict(alloc, id, &None, true),
            Change::Gone(id) => {
                self.gone(id);
                Ok(())
            }
            Change::Opened(id, item) => self.opened(alloc, id, item),
            Change::Cleared(number) => {
                self.cleared(alloc, *number);
                Ok(())
            }
            Change::InfoIs(info) => self.informed(alloc, info),
            Change::ContextIs(context) => self.listed(alloc, context),
        }
    }
}
