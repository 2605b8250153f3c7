ghost use Rattle.std.specs.Prelude.{◌≡◌, Some};
ghost use Rattle.jop_cli.specs.Commands.Sync.{sync_status};
ghost use Rattle.jop_cli.specs.Run.{Acts, IsFreshOutside};
ghost use Rattle.jop_words.specs.declared.target_name.TargetName.{TargetName};
ghost use Rattle.jop_words.specs.declared.verb.Verb.TheVariants as verbs;

use crate::world::World;
use client::{Known, known_client};
use jop_base::let_go;
use jop_status::Status;
use std::alloc::Global;
use sync_session::SyncErr;

/// Brings the tables and the target together in a session of the client that the tables name, and prints what was
/// done. Where they name none, it is named before anything else is changed or called.
pub(crate) fn obey<W: World>(alloc: Global, world: &mut W) -> Status
    requires { IsFreshOutside (W.now world.old) }
    ensures acts { (name : TargetName) → Acts (Some (verbs.Sync name)) (W.now world.old) result
        (W.now world.new) }
    ensures stays { W.place world.new ≡ W.place world.old }
{
    let Known { client, mut tables } = match known_client(alloc, world) {
        Ok(known) => known,
        Err(error) => return Status::from(error),
    };
    let synced = world.sync(alloc, &mut tables, &client);
    let_go(tables);
    match synced {
        Ok(report) => world.emit_report(&report),
        Err(error) => sync_status(error),
    }
}

/// How a sync that ended so is told.
fn sync_status(error: SyncErr) -> Status
    ensures { result ≡ sync_status error }
{
    match error {
        SyncErr::Busy { lock, now } => Status::Busy { lock, now },
        SyncErr::LeaseLost(seen) => Status::LeaseLost(seen),
        SyncErr::Refused(why) => Status::Refused(why),
        SyncErr::TargetFault => Status::TargetFault,
        SyncErr::KeeperFault => Status::KeeperFault,
        SyncErr::NoMemory => Status::NoMemory,
    }
}
