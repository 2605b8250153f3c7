ghost use Rattle.std.specs.Prelude.{◌≡◌, None, refl};
ghost use Rattle.session.specs.Sessions.{gave_bytes};

use crate::asking::ask;
use crate::finding::Finding;
use crate::judging::judge_row;
use crate::session::Session;
use client::Client;
use conflicts::{StepErr, SyncReport, Tally};
use jop_base::{Bytes, Copied, Id, Path};
use jop_target::{Call, Reply};
use lease::Lease;
use local_store::{Change, Tables};
use std::alloc::Global;

/// A session that works for this client, under this lease, and counts in this report.
#[derive(Drop)]
pub struct Hand<'a, S: Client> {
    pub site: &'a mut S,
    pub lease: &'a mut Lease,
    pub report: &'a mut SyncReport,
}

/// Whether a reply gave the bytes of a resource.
fn gave_bytes(reply: &Reply) -> bool
    ensures { result ≡ gave_bytes reply.now }
{
    matches!(reply, Reply::GotBlob { now: _, len: _ })
}

impl<'a, S: Client> Session for Hand<'a, S> {
    ghost now = { λ h. record {
      site = S.site h.site.now;
      lease = h.lease.now;
      report = h.report.now;
      known = None;
      place = record {
        client = S.place h.site.now;
        site = h.site.ghost_name;
        lease = h.lease.ghost_name;
        report = h.report.ghost_name;
      };
    } };

    ghost unshown = { λ h. refl };

    fn tables(&self) -> &Tables {
        self.site.tables()
    }

    fn last(&self) -> &Reply {
        self.site.last()
    }

    fn ask(&mut self, alloc: Global, call: Call) -> Result<(), StepErr> {
        let mut none = Bytes::new(alloc);
        ask(alloc, &mut *self.site, &mut *self.lease, call, &mut none)
    }

    fn find(&mut self, alloc: Global, id: &Id) -> Result<Finding, StepErr> {
        let mut none = Bytes::new(alloc);
        ask(
            alloc,
            &mut *self.site,
            &mut *self.lease,
            Call::Get(Path::Item(*id)),
            &mut none,
        )?;
        let finding = judge_row(
            alloc,
            &mut *self.report,
            self.site.tables(),
            id,
            self.site.last(),
        )?;
        Ok(finding)
    }

    fn fetch(&mut self, alloc: Global, id: &Id) -> Result<(), StepErr> {
        let mut bytes = Bytes::new(alloc);
        ask(
            alloc,
            &mut *self.site,
            &mut *self.lease,
            Call::GetBlob(*id),
            &mut bytes,
        )?;
        if !gave_bytes(self.site.last()) {
            return Ok(());
        }
        self.site.save_blob(alloc, id, &bytes)?;
        Ok(())
    }

    fn load(&mut self, alloc: Global, id: &Id) -> Result<Option<Bytes>, StepErr> {
        let bytes = self.site.load_blob(alloc, id)?;
        Ok(bytes)
    }

    fn put_bytes(&mut self, alloc: Global, id: &Id, bytes: &mut Bytes) -> Result<(), StepErr> {
        let len = bytes.len() as u64;
        ask(
            alloc,
            &mut *self.site,
            &mut *self.lease,
            Call::PutBlob { id: *id, len },
            bytes,
        )
    }

    fn make(&mut self, alloc: Global, change: Change) -> Result<(), StepErr> {
        self.make_shown(alloc, change)
    }

    fn make_shown(&mut self, alloc: Global, change: Change) -> Result<(), StepErr> {
        let tally = Tally::of(&change);
        self.site.commit(alloc, change)?;
        self.report.count(tally);
        Ok(())
    }

    fn make_each(&mut self, alloc: Global, changes: &[Change]) -> Result<(), StepErr> {
        for index in 0..changes.len() {
            let change = changes[index].copy(alloc)?;
            self.make_shown(alloc, change)?;
        }
        Ok(())
    }
}
