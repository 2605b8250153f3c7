ghost use Rattle.std.specs.Prelude.{◌≡◌, OnOk, OnErr, bytes_eq};
ghost use Rattle.delta.specs.Order.{includes};
ghost use Rattle.conflicts.specs.Reports.{new_report, with_bad, with_tally};

use crate::tally::Tally;
use jop_base::{Id, Seq};
use std::alloc::{AllocError, Global};

/// What a session has done. A count that reaches the end of its type stands still.
#[derive(Debug, PartialEq, Eq, Drop)]
pub struct SyncReport {
    /// Items uploaded.
    pub put: u64,
    /// Items deleted on the target.
    pub removed: u64,
    /// Items read from the target.
    pub taken: u64,
    /// Items that are gone on the target.
    pub gone: u64,
    /// Conflict notes made.
    pub conflicts: u64,
    /// Items whose files can't be read, in the order in which that was found, each once.
    pub bad: Seq<Id>,
    /// Items that are sealed.
    pub locked: u64,
}

fn is_same(id: &Id, other: &Id) -> bool
    ensures { result ≡ bytes_eq id.now other.now }
{
    id == other
}

/// Whether the id stands among these.
fn has(ids: &[Id], id: &Id) -> bool
    ensures { result ≡ includes ids.now id.now }
{
    for other in ids {
        if is_same(id, other) {
            return true;
        }
    }
    false
}

impl SyncReport {
    /// Nothing was done.
    pub fn new(alloc: Global) -> SyncReport
        ensures { result ≡ new_report }
    {
        SyncReport {
            put: 0,
            removed: 0,
            taken: 0,
            gone: 0,
            conflicts: 0,
            bad: Seq::new(alloc),
            locked: 0,
        }
    }

    /// Counts a change.
    pub fn count(&mut self, tally: Tally)
        ensures { self.new ≡ with_tally self.old tally }
    {
        match tally {
            Tally::Put => self.put = self.put.saturating_add(1),
            Tally::Removed => self.removed = self.removed.saturating_add(1),
            Tally::Taken => self.taken = self.taken.saturating_add(1),
            Tally::Gone => self.gone = self.gone.saturating_add(1),
            Tally::Copied => self.conflicts = self.conflicts.saturating_add(1),
            Tally::Other => {}
        }
    }

    /// Notes an item whose file can't be read, unless it was noted before.
    pub fn add_bad(&mut self, id: Id) -> Result<(), AllocError>
        ensures ok { OnOk result (self.new ≡ with_bad self.old id) }
        ensures err { OnErr result (self.new ≡ self.old) }
    {
        if has(self.bad.as_slice(), &id) {
            return Ok(());
        }
        self.bad.push(id)
    }
}
