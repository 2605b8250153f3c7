ghost use Rattle.std.specs.Prelude.{IfErr, IfOk, OnOk, [], false};
ghost use Rattle.lease.specs.Added.{AddsCalls, look_calls, put_calls};
ghost use Rattle.lease.specs.Calls.{GivesUp, HasSeen, IsHeard, IsRefused, LeaseGoesOn, MayAskOwn, MayPutLock, asking};
ghost use Rattle.lease.specs.Discipline.{phase_of};
ghost use Rattle.lease.specs.Phase.{Free};
ghost use Rattle.lease.specs.Standing.{StandsIn};

use crate::content::own_content;
use crate::error::AskErr;
use crate::lock::own_path;
use crate::sight::{Sight, sight_of};
use jop_base::{Bytes, ClientId, Dir, LockKind};
use jop_target::{Call, Line, Reply};
use std::alloc::Global;

/// Makes one call of a lease.
pub(crate) fn ask<L: Line>(
    alloc: Global,
    line: &mut L,
    client: &ClientId,
    call: Call,
) -> Result<(), AskErr>
    requires { MayAskOwn client.now (L.state line.old).trail call }
    ensures goes { LeaseGoesOn client.now (L.state line.old) (L.state line.new) }
    ensures ok { OnOk result (IsHeard client.now call (L.state line.old) (L.state line.new)) }
    ensures err { IfErr result (IsRefused client.now call (L.state line.old) (L.state line.new)) }
    ensures keeps { L.keeps line.old line.new }
{
    let mut blob = Bytes::new(alloc);
    line.call(alloc, call, &mut blob)?;
    match line.last() {
        Reply::Failed => Err(AskErr::Fault),
        _ => Ok(()),
    }
}

/// Makes the folder of locks, and lists it.
pub(crate) fn look<L: Line>(
    alloc: Global,
    line: &mut L,
    kind: LockKind,
    client: &ClientId,
) -> Result<Sight, AskErr>
    requires { StandsIn client.now (L.state line.old).trail Free }
    ensures goes { LeaseGoesOn client.now (L.state line.old) (L.state line.new) }
    ensures ok { IfOk result (HasSeen kind client.now Free (L.state line.new).trail) }
    ensures calls { let looks = look_calls in
        OnOk result (AddsCalls looks [] false (L.state line.old).trail (L.state line.new).trail) }
    ensures err { let looks = look_calls in
        IfErr result (GivesUp looks client.now (L.state line.old) (L.state line.new)) }
    ensures keeps { L.keeps line.old line.new }
{
    ask(alloc, line, client, Call::MakeDir(Dir::Locks))?;
    ask(alloc, line, client, Call::List(Dir::Locks))?;
    match line.last() {
        Reply::Listed(listing) => Ok(sight_of(listing, kind, client)),
        _ => unreachable!(),
    }
}

/// Puts its own lock, and lists the folder.
pub(crate) fn put_and_look<L: Line>(
    alloc: Global,
    line: &mut L,
    kind: LockKind,
    client: &ClientId,
) -> Result<Sight, AskErr>
    requires { MayPutLock kind client.now (L.state line.old).trail }
    ensures goes { LeaseGoesOn client.now (L.state line.old) (L.state line.new) }
    ensures ok { let asked = asking kind (phase_of client.now (L.state line.old).trail) in
        IfOk result (HasSeen kind client.now asked (L.state line.new).trail) }
    ensures calls { let puts = put_calls kind client.now in
        OnOk result (AddsCalls puts [] false (L.state line.old).trail (L.state line.new).trail) }
    ensures err { let puts = put_calls kind client.now in
        IfErr result (GivesUp puts client.now (L.state line.old) (L.state line.new)) }
    ensures keeps { L.keeps line.old line.new }
{
    let content = own_content(alloc, kind, client)?;
    let path = own_path(kind, client);
    ask(alloc, line, client, Call::Put(path, content))?;
    ask(alloc, line, client, Call::List(Dir::Locks))?;
    match line.last() {
        Reply::Listed(listing) => Ok(sight_of(listing, kind, client)),
        _ => unreachable!(),
    }
}
