ghost use Rattle.std.specs.Prelude.{◌≡◌, ◌≤◌, ◌++◌, ◌∷◌, [], IfOk, OnOk};
ghost use Rattle.std.specs.List.{list_any};
ghost use Rattle.jop_base.specs.Times.{last_time};
ghost use Rattle.new_keys.specs.Infos.{kept_if_other, other_keys, with_active_key, with_new_key};
ghost use Rattle.sync_info.specs.Info.{IsInfo, IsKeyRecord, has_id};

use jop_base::{Copied, Id, Seq, Text};
use std::alloc::{AllocError, Global};
use sync_info::{Info, KeyRecord, Timed};

/// Whether an info has a record of this id.
pub fn has_key(info: &Info, id: &Id) -> bool
    ensures { result ≡ list_any (has_id id.now) info.now.keys }
{
    info.keys.as_slice().iter().any(|known| known.id == *id)
}

/// Adds a copy of a record, unless it has this id.
fn add_other(
    alloc: Global,
    keys: &mut Seq<KeyRecord>,
    known: &KeyRecord,
    id: &Id,
) -> Result<(), AllocError>
    ensures { OnOk result (keys.new ≡ keys.old ++ kept_if_other id.now known.now) }
{
    if known.id == *id {
        return Ok(());
    }
    let copy = known.copy(alloc)?;
    keys.push(copy)
}

/// Copies of the records that don't have this id.
fn other_keys(alloc: Global, keys: &[KeyRecord], id: &Id) -> Result<Seq<KeyRecord>, AllocError>
    ensures { IfOk result (λ others. others ≡ other_keys id.now keys.now) }
{
    let mut others = Seq::new(alloc);
    for known in keys {
        add_other(alloc, &mut others, known, id)?;
    }
    Ok(others)
}

/// The info with these keys, of which the one of an id is active from this time on. Puts are to be sealed.
fn activated(
    alloc: Global,
    info: &Info,
    keys: Seq<KeyRecord>,
    id: &Id,
    now: u64,
) -> Result<Info, AllocError>
    ensures { IfOk result
        (λ made. made ≡ with_active_key (record info.now { keys = keys }) id.now now) }
{
    let value = Text::of(alloc, id.as_str())?;
    let others = info.others.copy(alloc)?;
    Ok(Info {
        version: info.version,
        e2ee: Timed {
            value: true,
            updated: now,
        },
        active: Timed {
            value,
            updated: now,
        },
        keys,
        others,
    })
}

/// The info in which the key of an id is active, and puts are sealed, from a time on, in milliseconds since 1970.
pub fn with_active_key(alloc: Global, info: &Info, id: &Id, now: u64) -> Result<Info, AllocError>
    requires info { IsInfo info.now }
    requires time { now ≤ last_time }
    ensures made { IfOk result (λ made. made ≡ with_active_key info.now id.now now) }
    ensures valid { IfOk result IsInfo }
{
    id.prove_valid();
    let keys = info.keys.copy(alloc)?;
    let made = activated(alloc, info, keys, id, now)?;
    Ok(made)
}

/// The info with a new key behind the others, which is active, while puts are sealed, from a time on, in milliseconds
/// since 1970. A record of the same id goes.
pub fn with_new_key(
    alloc: Global,
    info: &Info,
    key: KeyRecord,
    now: u64,
) -> Result<Info, AllocError>
    requires info { IsInfo info.now }
    requires key { IsKeyRecord key }
    requires time { now ≤ last_time }
    ensures made { IfOk result (λ made. made ≡ with_new_key info.now key now) }
    ensures valid { IfOk result IsInfo }
{
    let id = key.id;
    let mut keys = other_keys(alloc, info.keys.as_slice(), &id)?;
    keys.push(key)?;
    let made = activated(alloc, info, keys, &id, now)?;
    Ok(made)
}
