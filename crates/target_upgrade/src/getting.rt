ghost use Rattle.std.specs.Prelude.{◌<◌, ◌+◌, [], length, drop, IfErr, IfOk, OnOk};
ghost use Rattle.sync_info.specs.Info.{IsInfo};
ghost use Rattle.target_upgrade.specs.Answers.{ComesOr, HasCome, StandsAt, Stops, WorkGoesOn};
ghost use Rattle.target_upgrade.specs.Steps.{At, Gets, Upgraded, at_version};

use crate::asking::ask;
use crate::items::items_in;
use crate::key::{add_key, got_key};
use crate::step::Step;
use jop_base::{Id, Path, Seq};
use jop_target::{Call, Line, Reply};
use lease::{Lease, LeaseErr};
use std::alloc::Global;
use sync_info::{Info, write_info};

/// Brings a target from version 2 to 3: takes the keys that stand in item files into its info.
pub(crate) fn take_keys<L: Line>(
    alloc: Global,
    line: &mut L,
    lease: &mut Lease,
    info: Info,
) -> Result<(), LeaseErr>
    requires at { StandsAt lease.old (L.state line.old).trail (At Step.ListsRoot info) }
    requires valid { IsInfo info }
    ensures gives { let before = L.state line.old in
        ComesOr lease.old lease.new Upgraded before (L.state line.new) result }
    ensures goes { WorkGoesOn lease.old.client (L.state line.old) (L.state line.new) }
    ensures keeps { L.keeps line.old line.new }
{
    let ids = list_items(alloc, line, lease, &info)?;
    let mut third = info;
    third.version = 3;
    get_keys(alloc, line, lease, ids.as_slice(), &mut third)?;
    put_info(alloc, line, lease, &third)?;
    Ok(())
}

/// Lists the items.
fn list_items<L: Line>(
    alloc: Global,
    line: &mut L,
    lease: &mut Lease,
    info: &Info,
) -> Result<Seq<Id>, LeaseErr>
    requires at { StandsAt lease.old (L.state line.old).trail (At Step.ListsRoot info.now) }
    requires valid { IsInfo info.now }
    ensures ok { let third = at_version 3 info.now in
        IfOk result (λ ids. HasCome lease.old lease.new (Gets ids third) (L.state line.new)) }
    ensures err { IfErr result (Stops lease.old (L.state line.old) (L.state line.new)) }
    ensures goes { WorkGoesOn lease.old.client (L.state line.old) (L.state line.new) }
    ensures keeps { L.keeps line.old line.new }
{
    let call = Step::ListsRoot.call(alloc, info)?;
    ask(alloc, line, lease, call)?;
    match line.last() {
        Reply::Listed(listing) => Ok(items_in(alloc, listing)?),
        _ => unreachable!(),
    }
}

/// Gets the files of items, and takes their keys into the info.
fn get_keys<L: Line>(
    alloc: Global,
    line: &mut L,
    lease: &mut Lease,
    ids: &[Id],
    info: &mut Info,
) -> Result<(), LeaseErr>
    requires at { StandsAt lease.old (L.state line.old).trail (Gets ids.now info.old) }
    requires valid { IsInfo info.old }
    ensures gives { let before = L.state line.old in
        ComesOr lease.old lease.new (Gets [] info.new) before (L.state line.new) result }
    ensures valid { OnOk result (IsInfo info.new) }
    ensures goes { WorkGoesOn lease.old.client (L.state line.old) (L.state line.new) }
    ensures keeps { L.keeps line.old line.new }
{
    for index in 0..ids.len() {
        get_key(alloc, line, lease, ids, index, info)?;
    }
    Ok(())
}

/// Gets the file of the item at a place, counted from 0, and takes its key into the info.
fn get_key<L: Line>(
    alloc: Global,
    line: &mut L,
    lease: &mut Lease,
    ids: &[Id],
    index: usize,
    info: &mut Info,
) -> Result<(), LeaseErr>
    requires within { index < length ids.now }
    requires at { let left = Gets (drop index ids.now) info.old in
        StandsAt lease.old (L.state line.old).trail left }
    requires valid { IsInfo info.old }
    ensures gives { let left = Gets (drop (index + 1) ids.now) info.new in
        ComesOr lease.old lease.new left (L.state line.old) (L.state line.new) result }
    ensures valid { OnOk result (IsInfo info.new) }
    ensures goes { WorkGoesOn lease.old.client (L.state line.old) (L.state line.new) }
    ensures keeps { L.keeps line.old line.new }
{
    let id = ids[index];
    ask(alloc, line, lease, Call::Get(Path::Item(id)))?;
    let key = got_key(alloc, line.last(), &id)?;
    add_key(info, key)?;
    Ok(())
}

/// Puts the info of the upgraded target.
fn put_info<L: Line>(
    alloc: Global,
    line: &mut L,
    lease: &mut Lease,
    info: &Info,
) -> Result<(), LeaseErr>
    requires at { StandsAt lease.old (L.state line.old).trail (Gets [] info.now) }
    requires valid { IsInfo info.now }
    ensures gives { let before = L.state line.old in
        ComesOr lease.old lease.new Upgraded before (L.state line.new) result }
    ensures goes { WorkGoesOn lease.old.client (L.state line.old) (L.state line.new) }
    ensures keeps { L.keeps line.old line.new }
{
    let text = write_info(alloc, info)?;
    ask(alloc, line, lease, Call::Put(Path::Info, text))?;
    Ok(())
}
