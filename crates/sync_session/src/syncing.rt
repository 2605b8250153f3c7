ghost use Rattle.std.specs.Prelude.{◌≡◌, false};
ghost use Rattle.client.specs.Sites.{IsTidy};
ghost use Rattle.jop_base.specs.declared.lock_name.LockKind.{LockKind};
ghost use Rattle.sync_run.specs.Leases.{KeepsLeaseFrom};
ghost use Rattle.sync_session.specs.Ordering.{AddsByKey, AddsInOrder, RunsByKey, RunsInOrder};
ghost use Rattle.sync_session.specs.Syncing.{AddsFrom, EndsWork, GoesBySync, HasBegunSync, HeedsFrom, KeepsNotesIn, LicensedFrom};
ghost use Rattle.sync_session.specs.Syncing.{LineGoesBySync, RunsSync, blocked_by, sited};
ghost use Rattle.sync_session.specs.Working.{StartsSync};
ghost use Rattle.law_licences.specs.Sealing.{no_keys};

use crate::keys::sealed_rows;
use crate::leaving::leave;
use crate::sync_err::{SyncErr, has_ended};
use crate::working::work;
use client::{Client, Site};
use conflicts::SyncReport;
use jop_base::{ClientId, LockKind};
use jop_target::{Diary, Target};
use keeper::Keeper;
use law_exclusion::exclusive;
use law_kept::notes_are_kept_by_tables;
use lease::{Lease, acquire, blocked, held_apart};
use local_store::{Changes, Tables};
use session::Hand;
use std::alloc::Global;

/// A session that brings a client's tables and a target together. It takes a sync lock for the
/// client, reads the info of the target and merges it with the client's own, uploads what was saved
/// here and deletes what was removed here, reads what others have done, and releases the lock. It
/// answers what was done.
///
/// `Busy` and `LeaseLost` if there is no lease, or none any more; `Refused` by what was read of the
/// target, or if items wait that are to be sealed; `TargetFault` and `KeeperFault` if a call of
/// theirs failed.
pub fn sync_on<T: Target, K: Keeper>(
    alloc: Global,
    target: &mut T,
    keeper: &mut K,
    tables: &mut Tables,
    client: &ClientId,
    diary: &mut Diary,
    made: &mut Changes,
) -> Result<SyncReport, SyncErr>
    // They are sound, and those that are kept, if that is told.
    requires tidy { IsTidy (sited diary.old.events (T.state target.old) (K.state keeper.old)
        tables.old made.old.changes) }

    ensures session { AddsFrom client.now
        (sited diary.old.events (T.state target.old) (K.state keeper.old) tables.old
        made.old.changes) result
        (sited diary.new.events (T.state target.new) (K.state keeper.new) tables.new
        made.new.changes) }
    ensures line { GoesBySync client.now diary.old.events diary.new.events (T.state target.old)
        (T.state target.new) }

    // Whatever the target answers, and whatever history the added events are the client's last part of: the session
    // keeps its locks, and writes at the version that it has read; no other client's write falls within an upgrade, and
    // no two upgrades overlap; each write of a synchroniser, and each first write of an upgrade, lands on the version
    // that its session has read, if the other clients do under their leases what is allowed; and the lock that a busy
    // answer names stood in the way.
    ensures keeps { KeepsLeaseFrom LockKind.Sync client.now (blocked_by result) false
        diary.old.events diary.new.events }

    // Once its calls say that the target is of another version, or that its info can't be read, nothing more is called
    // but what the lease does by itself, and that is what is answered, unless memory runs out.
    ensures order { AddsInOrder diary.old.events result diary.new.events }

    // Once its calls say that the target has the merge of its info and the client's own, while something waits that is
    // to be sealed by that, nothing more is called but what the lease does by itself, and `NoKey` is answered, unless
    // memory runs out, or the keeper fails where the client's own info is to become the merge.
    ensures key { AddsByKey tables.old diary.old.events result diary.new.events }

    // Once the root's listing shows no item, while some of these tables, as they are then, have a base, nothing more is
    // done but what the lease does by itself, and `FailSafe` is answered, unless memory runs out.
    ensures emptied { HeedsFrom tables.old result diary.old.events diary.new.events made.old.changes
        made.new.changes }

    // Each call and each change has its licence, from these tables on.
    ensures licensed { LicensedFrom tables.old diary.old.events diary.new.events made.old.changes
        made.new.changes }

    // Then no saved note is lost, in whatever history this is the client's last run, if no other
    // upload of the note falls between a check and its write, and the other clients have their
    // licences too.
    ensures kept { KeepsNotesIn client.now tables.old diary.old.events diary.new.events
        made.old.changes made.new.changes }
{
    held_apart();
    exclusive();
    blocked();
    notes_are_kept_by_tables();
    let mut site = Site {
        target,
        keeper,
        tables,
        diary,
        made,
    };
    make_session(alloc, &mut site, client)
}

/// Makes the session, and writes down where it begins and ends.
fn make_session<S: Client>(
    alloc: Global,
    site: &mut S,
    client: &ClientId,
) -> Result<SyncReport, SyncErr>
    requires tidy { IsTidy (S.site site.old) }

    ensures session { AddsFrom client.now (S.site site.old) result (S.site site.new) }
    ensures line { LineGoesBySync client.now (S.site site.old).line (S.site site.new).line }
    ensures order { AddsInOrder (S.site site.old).line.trail result (S.site site.new).line.trail }
    ensures key { AddsByKey (S.site site.old).tables (S.site site.old).line.trail result
        (S.site site.new).line.trail }
    ensures stays { S.place site.new ≡ S.place site.old }
{
    site.begin()?;
    let outcome = take_and_sync(alloc, site, client);
    if has_ended(&outcome) {
        site.end()?;
    }
    outcome
}

/// Takes the lease, and syncs under it.
fn take_and_sync<S: Client>(
    alloc: Global,
    site: &mut S,
    client: &ClientId,
) -> Result<SyncReport, SyncErr>
    requires begun { HasBegunSync client.now (S.site site.old) }
    ensures runs { RunsSync client.now (S.site site.old) result (S.site site.new) }
    ensures order { RunsInOrder result (S.site site.new) }
    ensures key { RunsByKey (S.site site.old).tables result (S.site site.new) }
    ensures stays { S.place site.new ≡ S.place site.old }
{
    let lease = acquire(alloc, site, LockKind::Sync, client)?;
    let mut report = SyncReport::new(alloc);
    sync_held(alloc, site, lease, &mut report)?;
    report.locked = sealed_rows(site.tables());
    Ok(report)
}

/// Syncs under a lease, and gives it up.
fn sync_held<S: Client>(
    alloc: Global,
    site: &mut S,
    mut lease: Lease,
    report: &mut SyncReport,
) -> Result<(), SyncErr>
    requires starts { StartsSync (S.site site.old) lease }
    ensures ends { EndsWork lease (S.site site.old) report.old result (S.site site.new) report.new }
    ensures order { RunsInOrder result (S.site site.new) }
    ensures key { RunsByKey (S.site site.old).tables result (S.site site.new) }
    ensures stays { S.place site.new ≡ S.place site.old }
{
    let worked = {
        let mut s = Hand {
            site: &mut *site,
            lease: &mut lease,
            report: &mut *report,
        };
        work(alloc, &mut s)
    };
    leave(alloc, site, lease, worked)
}
