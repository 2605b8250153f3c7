ghost use Rattle.std.specs.Prelude.{◌≡◌, OnOk, OnErr, not, nat_eq};
ghost use Rattle.std.specs.List.{filter};
ghost use Rattle.local_store.specs.Changing.{saved, with_removal, uploaded, taken, with_remote, without_row, with_conflict_note, conflicted, opened, cleared};
ghost use Rattle.local_store.specs.Tables.{row_at, is_synced, is_resource_row};

use crate::conflict_note::ConflictNote;
use crate::content::Content;
use crate::deletion::Deletion;
use crate::kinds::has_kind;
use crate::row::Row;
use crate::tables::Tables;
use item_kinds::Kind;
use item_text::Item;
use jop_base::{Bytes, Context, Copied, Id, Seq};
use std::alloc::{AllocError, Global};
use std::mem;
use sync_info::Info;

/// Takes out each note of this number.
fn clear(notes: &mut Vec<ConflictNote>, number: u64)
    ensures { notes.new.items ≡ filter (λ n. not (nat_eq n.number number)) notes.old.items }
{
    notes.retain(|note| note.number != number);
}

impl Tables {
    pub(crate) fn saved(&mut self, alloc: Global, id: &Id, item: &Item) -> Result<(), AllocError>
        ensures ok { OnOk result (self.new ≡ saved self.old id.now item.now) }
        ensures err { OnErr result (self.new ≡ self.old) }
    {
        let base = match self.rows.at(id) {
            Some(row) => row.base.copy(alloc)?,
            None => None,
        };
        let content = Content::Plain(item.copy(alloc)?);
        self.rows.put(Row {
            id: *id,
            content,
            base,
            pending: true,
        })?;
        Ok(())
    }

    fn is_synced(&self, id: &Id) -> bool
        ensures { result ≡ is_synced (row_at self.now id.now) }
    {
        match self.rows.at(id) {
            Some(row) => row.base.is_some(),
            None => false,
        }
    }

    fn is_resource(&self, id: &Id) -> bool
        ensures { result ≡ is_resource_row (row_at self.now id.now) }
    {
        match self.rows.at(id) {
            Some(row) => has_kind(row.content.item(), Kind::RESOURCE),
            None => false,
        }
    }

    pub(crate) fn removed(&mut self, id: &Id) -> Result<(), AllocError>
        ensures ok { OnOk result (self.new ≡ with_removal self.old id.now) }
        ensures err { OnErr result (self.new ≡ self.old) }
    {
        if self.is_synced(id) {
            let resource = self.is_resource(id);
            self.deletions.put(Deletion { id: *id, resource })?;
        }
        self.gone(id);
        Ok(())
    }

    /// The row goes, if it is there.
    pub(crate) fn gone(&mut self, id: &Id)
        ensures { self.new ≡ without_row self.old id.now }
    {
        self.rows.cut(id);
    }

    pub(crate) fn uploaded(
        &mut self,
        alloc: Global,
        id: &Id,
        bytes: &Bytes,
    ) -> Result<(), AllocError>
        ensures ok { OnOk result
            (self.new ≡ uploaded self.old id.now bytes.now (row_at self.old id.now)) }
        ensures err { OnErr result (self.new ≡ self.old) }
    {
        let content = match self.rows.at(id) {
            Some(row) => row.content.copy(alloc)?,
            None => return Ok(()),
        };
        let base = Some(bytes.copy(alloc)?);
        self.rows.put(Row {
            id: *id,
            content,
            base,
            pending: false,
        })?;
        Ok(())
    }

    pub(crate) fn taken(
        &mut self,
        alloc: Global,
        id: &Id,
        bytes: &Bytes,
        content: &Content,
    ) -> Result<(), AllocError>
        ensures ok { OnOk result (self.new ≡ taken self.old id.now bytes.now content.now) }
        ensures err { OnErr result (self.new ≡ self.old) }
    {
        let base = Some(bytes.copy(alloc)?);
        let content = content.copy(alloc)?;
        self.rows.put(Row {
            id: *id,
            content,
            base,
            pending: false,
        })?;
        Ok(())
    }

    /// The row becomes what its file held, or goes with it.
    fn set_remote(
        &mut self,
        alloc: Global,
        id: &Id,
        remote: &Option<(Bytes, Content)>,
    ) -> Result<(), AllocError>
        ensures ok { OnOk result (self.new ≡ with_remote self.old id.now remote.now) }
        ensures err { OnErr result (self.new ≡ self.old) }
    {
        match remote {
            Some((bytes, content)) => self.taken(alloc, id, bytes, content),
            None => {
                self.gone(id);
                Ok(())
            }
        }
    }

    /// The item joins the conflict notes.
    fn note(&mut self, id: &Id, item: Item) -> Result<(), AllocError>
        ensures ok { OnOk result (self.new ≡ with_conflict_note self.old id.now item) }
        ensures err { OnErr result (self.new ≡ self.old) }
    {
        let number = self.next_conflict;
        self.conflicts.push(ConflictNote {
            number,
            note: *id,
            item,
        })?;
        self.next_conflict = number.saturating_add(1);
        Ok(())
    }

    /// The row becomes what its file held, and its own item joins the conflict notes.
    fn set_remote_and_note(
        &mut self,
        alloc: Global,
        id: &Id,
        remote: &Option<(Bytes, Content)>,
        item: Item,
    ) -> Result<(), AllocError>
        ensures ok { OnOk result
            (self.new ≡ with_remote (with_conflict_note self.old id.now item) id.now remote.now) }
        ensures err { OnErr result (self.new ≡ self.old) }
    {
        let count = self.conflicts.len();
        let next = self.next_conflict;
        self.note(id, item)?;
        if let Err(error) = self.set_remote(alloc, id, remote) {
            self.conflicts.truncate(count);
            self.next_conflict = next;
            return Err(error);
        }
        Ok(())
    }

    pub(crate) fn conflict(
        &mut self,
        alloc: Global,
        id: &Id,
        remote: &Option<(Bytes, Content)>,
        copies: bool,
    ) -> Result<(), AllocError>
        ensures ok { OnOk result (self.new
            ≡ conflicted self.old id.now remote.now copies (row_at self.old id.now)) }
        ensures err { OnErr result (self.new ≡ self.old) }
    {
        let item = match self.rows.at(id) {
            Some(row) if copies => row.content.item().copy(alloc)?,
            Some(_) => return self.set_remote(alloc, id, remote),
            None => return Ok(()),
        };
        self.set_remote_and_note(alloc, id, remote, item)
    }

    pub(crate) fn opened(&mut self, alloc: Global, id: &Id, item: &Item) -> Result<(), AllocError>
        ensures ok { OnOk result
            (self.new ≡ opened self.old id.now item.now (row_at self.old id.now)) }
        ensures err { OnErr result (self.new ≡ self.old) }
    {
        let (base, pending) = match self.rows.at(id) {
            Some(row) => (row.base.copy(alloc)?, row.pending),
            None => return Ok(()),
        };
        let content = Content::Plain(item.copy(alloc)?);
        self.rows.put(Row {
            id: *id,
            content,
            base,
            pending,
        })?;
        Ok(())
    }

    pub(crate) fn informed(&mut self, alloc: Global, info: &Info) -> Result<(), AllocError>
        ensures ok { OnOk result (self.new ≡ record self.old { info = info.now }) }
        ensures err { OnErr result (self.new ≡ self.old) }
    {
        self.info = info.copy(alloc)?;
        Ok(())
    }

    pub(crate) fn listed(&mut self, alloc: Global, context: &Context) -> Result<(), AllocError>
        ensures ok { OnOk result (self.new ≡ record self.old { context = context.now }) }
        ensures err { OnErr result (self.new ≡ self.old) }
    {
        self.context = context.copy(alloc)?;
        Ok(())
    }

    pub(crate) fn cleared(&mut self, alloc: Global, number: u64)
        ensures { self.new ≡ cleared self.old number }
    {
        let mut notes = mem::replace(&mut self.conflicts, Seq::new(alloc)).into_vec();
        clear(&mut notes, number);
        self.conflicts = Seq::from_vec(notes);
    }
}
