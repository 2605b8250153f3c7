ghost use Rattle.std.specs.Prelude.{◌≡◌, IfOk, OnOk};
ghost use Rattle.download.specs.Emptied.{HeedsBetween, RefusesStep};
ghost use Rattle.download.specs.Reading.{EndsDownload, EndsPage, ListsPage, PageIn, PageOf};
ghost use Rattle.jop_target.specs.declared.reply.Reply.TheVariants.{Listed};
ghost use Rattle.jop_target.specs.declared.reply.Listing.{Listing as Shows};
ghost use Rattle.lease.specs.Standing.{IsSameBut};
ghost use Rattle.law_licences.specs.Pages.{IsPage};
ghost use Rattle.law_licences.specs.Views.{Shown, synced_ids};
ghost use Rattle.session.specs.Work.{IsAtWork, IsReady, work};

use crate::leaving::leave;
use crate::taking::take_listed;
use client::Client;
use conflicts::{Refusal, StepErr, SyncReport};
use delta::{Page, delta_of, fail_safe};
use jop_base::{Context, Copied, Dir, Id, Seq};
use jop_target::{Call, Listing, Reply};
use lease::Lease;
use local_store::{Change, Tables};
use session::{Hand, Session};
use std::alloc::{AllocError, Global};

/// The items of which the client has a base, in the order of their ids.
fn synced_ids(alloc: Global, tables: &Tables) -> Result<Seq<Id>, AllocError>
    ensures { IfOk result (λ ids. ids ≡ synced_ids tables.now) }
{
    let mut ids = Seq::new(alloc);
    for row in tables.rows.as_slice() {
        if row.base.is_some() {
            ids.push(row.id)?;
        }
    }
    Ok(ids)
}

/// What a listing of the root asks of the client, unless it looks as if the target were emptied.
fn page_in(alloc: Global, tables: &Tables, listing: &Listing) -> Result<Page, StepErr>
    ensures { PageIn tables.now listing.entry.now result }
{
    let synced = synced_ids(alloc, tables)?;
    if let Some(count) = fail_safe(listing, None, &synced) {
        return Err(StepErr::Refused(Refusal::FailSafe(count)));
    }
    let page = delta_of(alloc, listing, None, &tables.context, &synced)?;
    Ok(page)
}

/// The same, by the reply to a listing.
fn page_of(alloc: Global, tables: &Tables, reply: &Reply) -> Result<Page, StepErr>
    requires { (shown : Shows) × (reply.now ≡ Listed shown) }
    ensures { PageOf tables.now reply.now result }
{
    match reply {
        Reply::Listed(listing) => page_in(alloc, tables, listing),
        _ => unreachable!(),
    }
}

/// Lists the root, and says what that asks of the client.
fn list<W: Session>(alloc: Global, s: &mut W) -> Result<Page, StepErr>
    requires ready { IsAtWork (W.now s.old) }

    ensures ends { ListsPage (W.now s.old) result (W.now s.new) }
    ensures emptied { HeedsBetween (RefusesStep result) (W.now s.old).site (W.now s.new).site }
{
    s.ask(alloc, Call::List(Dir::Root))?;
    page_of(alloc, s.tables(), s.last())
}

/// Does what a page asks for, and then says how far the client has read the target now, which is the session's last
/// change.
fn apply<W: Session>(alloc: Global, s: &mut W, page: &Page) -> Result<(), StepErr>
    requires ready { IsAtWork (W.now s.old) }
    requires listed { (known : Shown) × IsPage known page.now }

    ensures ends { EndsPage page.now (W.now s.old) result (W.now s.new) }
{
    take_listed(alloc, s, page.taken.as_slice())?;
    leave(alloc, s, page.gone.as_slice())?;
    let next = page.next.copy(alloc)?;
    s.make_shown(alloc, Change::ContextIs(next))
}

/// Lists the root, reads what other clients have written since this one listed it last, and lets go
/// what they have deleted. If the root shows no item while some rows have a base, all would be
/// taken for deleted, where more likely the target was emptied or is another one: then nothing is
/// done.
pub fn apply_listed<W: Session>(alloc: Global, s: &mut W) -> Result<(), StepErr>
    requires ready { IsAtWork (W.now s.old) }

    ensures ends { EndsDownload (W.now s.old) result (W.now s.new) }
    // Where the listing looks like an emptied target, that is its refusal, unless memory runs out, and nothing is done
    // behind it but what the lease does by itself.
    ensures emptied { HeedsBetween (RefusesStep result) (W.now s.old).site (W.now s.new).site }
{
    let page = list(alloc, s)?;
    apply(alloc, s, &page)
}

/// The same for a client, under a lease, counted in a report.
pub fn apply_page<S: Client>(
    alloc: Global,
    site: &mut S,
    lease: &mut Lease,
    report: &mut SyncReport,
) -> Result<(), StepErr>
    requires ready { IsReady (S.site site.old) lease.old }

    ensures ready { OnOk result (IsReady (S.site site.new) lease.new) }
    ensures lease { IsSameBut lease.old lease.new }
    ensures ends { EndsDownload (work (S.site site.old) lease.old report.old) result
        (work (S.site site.new) lease.new report.new) }
    ensures emptied { HeedsBetween (RefusesStep result) (S.site site.old) (S.site site.new) }
    ensures stays { S.place site.new ≡ S.place site.old }
{
    let mut s = Hand {
        site: &mut *site,
        lease: &mut *lease,
        report: &mut *report,
    };
    apply_listed(alloc, &mut s)
}
