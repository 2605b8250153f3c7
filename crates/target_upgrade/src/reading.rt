ghost use Rattle.std.specs.Prelude.{◌≡◌, ◌≤◌, IfErr, IfOk};
ghost use Rattle.jop_target.specs.Replies.{IsReplyTo};
ghost use Rattle.sync_info.specs.Info.{new_info};
ghost use Rattle.target_upgrade.specs.Answers.{HasCome, StandsAt, Stops, WorkGoesOn};
ghost use Rattle.target_upgrade.specs.Reading.{HasFound, StopsReading, ReplyTells};
ghost use Rattle.target_upgrade.specs.Steps.{Reads, ReadsOld, starts};
ghost use Rattle.target_upgrade.specs.Verdict.{AwaitsInfo, FindsInOrder, upgrade_verdict_of};

use crate::asking::ask;
use jop_base::Path;
use jop_target::{Call, Line, Reply};
use lease::{Lease, LeaseErr};
use std::alloc::Global;
use sync_info::{Info, InfoErr, read_info};

/// The version of a target, and its info if it has an `info.json`.
#[derive(Debug, Drop)]
pub struct Found {
    pub version: u64,
    pub info: Option<Info>,
}

/// Why no version was read.
#[derive(Clone, Copy, Debug, PartialEq, Eq)]
pub enum ReadErr {
    /// `info.json` is too large, or is no info.
    BadInfo,
    /// A renewal gave no lease, a call failed, or memory ran out.
    Lease(LeaseErr),
}

impl From<LeaseErr> for ReadErr {
    ghost use Rattle.std.specs.Prelude.{◌≡◌};
    ghost use Rattle.target_upgrade.specs.declared.reading.ReadErr.TheVariants.{Lease as LeaseStops};

    ghost from_gives = { λ a e. e ≡ LeaseStops a };

    fn from(error: LeaseErr) -> ReadErr {
        ReadErr::Lease(error)
    }
}

/// Reads the version of a target under an exclusive lease: that of `info.json`, and without one 1
/// if `.sync/version.txt` is there in any form, and else 0. The lease is renewed when it is due.
/// `BadInfo` if `info.json` is too large or is no info.
pub fn read_version<L: Line>(
    alloc: Global,
    line: &mut L,
    lease: &mut Lease,
) -> Result<Found, ReadErr>
    requires { StandsAt lease.old (L.state line.old).trail Reads }
    ensures ok { IfOk result (λ found. HasFound lease.old lease.new found (L.state line.new)) }
    ensures err { let before = L.state line.old in
        IfErr result (StopsReading lease.old lease.new before (L.state line.new)) }

    // If its session had called nothing, it finds what its calls say, and calls nothing behind a refusal that is due.
    ensures order { upgrade_verdict_of (L.state line.old).trail ≡ AwaitsInfo
        → FindsInOrder result (upgrade_verdict_of (L.state line.new).trail) }

    ensures goes { WorkGoesOn lease.old.client (L.state line.old) (L.state line.new) }
    ensures keeps { L.keeps line.old line.new }
{
    ask(alloc, line, lease, Call::Get(Path::Info))?;
    match told(alloc, line.last())? {
        Some(info) => Ok(Found {
            version: info.version,
            info: Some(info),
        }),
        None => Ok(Found {
            version: read_old(alloc, line, lease)?,
            info: None,
        }),
    }
}

/// The info that `info.json` holds, if it is there.
fn told(alloc: Global, reply: &Reply) -> Result<Option<Info>, ReadErr>
    requires shape { IsReplyTo (Call.Get Path.Info) reply.now }
    requires heard { ¬ (reply.now ≡ Reply.Failed) }
    ensures { ReplyTells reply.now result }
{
    match reply {
        Reply::Absent { now: _ } => Ok(None),
        Reply::Got { now: _, content } => match read_info(alloc, content.as_slice()) {
            Ok(info) => Ok(Some(info)),
            Err(InfoErr::Bad(_)) => Err(ReadErr::BadInfo),
            Err(InfoErr::NoMemory) => Err(ReadErr::Lease(LeaseErr::NoMemory)),
        },
        _ => Err(ReadErr::BadInfo),
    }
}

/// 1 if `.sync/version.txt` is there in any form, and else 0.
fn read_old<L: Line>(alloc: Global, line: &mut L, lease: &mut Lease) -> Result<u64, LeaseErr>
    requires { StandsAt lease.old (L.state line.old).trail ReadsOld }
    ensures ok { IfOk result (λ version.
        HasCome lease.old lease.new (starts (new_info version)) (L.state line.new)) }
    ensures small { IfOk result (λ version. version ≤ 1) }
    ensures err { IfErr result (Stops lease.old (L.state line.old) (L.state line.new)) }
    ensures goes { WorkGoesOn lease.old.client (L.state line.old) (L.state line.new) }
    ensures keeps { L.keeps line.old line.new }
{
    ask(alloc, line, lease, Call::Get(Path::OldVersion))?;
    match line.last() {
        Reply::Absent { now: _ } => Ok(0),
        _ => Ok(1),
    }
}
