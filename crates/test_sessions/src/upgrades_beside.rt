ghost use Rattle.std.specs.Prelude.{◌≡◌, true, IfOk};
ghost use Rattle.std.specs.List.{list_all};
ghost use Rattle.test_script.specs.Script.{is_scriptable};

use crate::upgraded::{Outcome, TWO, id, upgrade};
use jop_base::{Bytes, Dir, LockKind, LockName, Path};
use jop_target::{Call, MemTarget};
use lease::Lock;
use std::alloc::Global;
use std::test::Fail;
use sync_run::SessionErr;
use test_script::ScriptedTarget;

fn own_lock(digits: &[u8]) -> Result<LockName, Fail> {
    Ok(LockName {
        kind: LockKind::Exclusive,
        client_type: 3,
        client: id(digits)?,
    })
}

/// A second upgrader's calls up to its second listing, each right before the first one's call of
/// that number.
fn script(alloc: Global) -> Result<Vec<(u64, Call)>, Fail>
    ensures { IfOk result (λ script. list_all is_scriptable script.items ≡ true) }
{
    let mut script = Vec::new(alloc);
    script.push((2, Call::MakeDir(Dir::Locks)))?;
    script.push((3, Call::List(Dir::Locks)))?;
    let lock = Path::Lock(own_lock(TWO)?);
    script.push((4, Call::Put(lock, Bytes::new(alloc))))?;
    Ok(script)
}

/// What the first upgrader comes to, and the number of files then.
fn upgrade_beside(alloc: Global) -> Result<(Outcome, usize), Fail> {
    let script = script(alloc)?;
    let mut target = ScriptedTarget::new(MemTarget::new(alloc, 0, 1), script);
    let (outcome, _) = upgrade(alloc, &mut target)?;
    Ok((outcome, target.tree().files.len()))
}

/// Of two upgraders that go for a lock in turns, the first finds the second's.
#[test]
fn two_upgraders_find_each_other(rt: HostRuntime) -> Result<(), Fail> {
    let name = own_lock(TWO)?;
    let lock = Lock { name, stamp: 5 };
    let busy = Err(SessionErr::Busy { lock, now: 6 });
    assert!(rt; upgrade_beside(rt.alloc())? == (busy, 1));
    Ok(())
}
