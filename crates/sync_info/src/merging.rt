ghost use Rattle.std.specs.Prelude.{◌≡◌, [], ◌∷◌, ◌++◌, IfOk};
ghost use Rattle.std.specs.Option.{option_copied};
ghost use Rattle.sync_info.specs.Info.{IsInfo};
ghost use Rattle.sync_info.specs.Merge.{later, later_record, renewed, missing, joined_keys, merged};

use crate::index::{has_record, index_of, record_of};
use crate::info::Info;
use crate::key_record::KeyRecord;
use crate::timed::Timed;
use jop_base::{Copied, Seq};
use std::alloc::{AllocError, Global};

/// The setting that was changed later, the remote one if both were at one time.
fn later<'a, T>(local: &'a Timed<T>, remote: &'a Timed<T>) -> &'a Timed<T>
    ensures { result.now ≡ later local.now remote.now }
{
    if remote.updated < local.updated {
        local
    } else {
        remote
    }
}

/// The remote record, or the local one of its id if that was changed later.
fn later_record<'a>(local: Option<&'a KeyRecord>, remote: &'a KeyRecord) -> &'a KeyRecord
    ensures { result.now ≡ later_record (option_copied local.entry) remote.now }
{
    match local {
        Some(key) if remote.updated < key.updated => key,
        _ => remote,
    }
}

/// A copy of the record behind the others.
fn push_copy(alloc: Global, keys: &mut Seq<KeyRecord>, key: &KeyRecord) -> Result<(), AllocError>
    ensures { IfOk result (λ _. keys.new ≡ keys.old ++ key.now ∷ []) }
{
    let copy = key.copy(alloc)?;
    keys.push(copy)?;
    Ok(())
}

fn renewed(
    alloc: Global,
    local: &[KeyRecord],
    remote: &[KeyRecord],
) -> Result<Seq<KeyRecord>, AllocError>
    ensures { IfOk result (λ keys. keys ≡ renewed local.now remote.now) }
{
    let index = index_of(alloc, local)?;
    let mut keys = Seq::new(alloc);
    for key in remote {
        let same = record_of(local, &index, &key.id);
        push_copy(alloc, &mut keys, later_record(same, key))?;
    }
    Ok(keys)
}

/// Adds the local records that the remote ones lack.
fn add_missing(
    alloc: Global,
    keys: &mut Seq<KeyRecord>,
    local: &[KeyRecord],
    remote: &[KeyRecord],
) -> Result<(), AllocError>
    ensures { IfOk result (λ _. keys.new ≡ keys.old ++ missing local.now remote.now) }
{
    let index = index_of(alloc, remote)?;
    for key in local {
        if !has_record(remote, &index, &key.id) {
            push_copy(alloc, keys, key)?;
        }
    }
    Ok(())
}

fn joined(
    alloc: Global,
    local: &[KeyRecord],
    remote: &[KeyRecord],
) -> Result<Seq<KeyRecord>, AllocError>
    ensures { IfOk result (λ keys. keys ≡ joined_keys local.now remote.now) }
{
    let mut keys = renewed(alloc, local, remote)?;
    add_missing(alloc, &mut keys, local, remote)?;
    Ok(keys)
}

/// One info of a client's and its target's: each setting and each key as it was changed later, and the rest as the
/// target has it. The time that it takes grows with the number of keys and not with its square.
pub fn merge(alloc: Global, local: &Info, remote: &Info) -> Result<Info, AllocError>
    requires local { IsInfo local.now }
    requires remote { IsInfo remote.now }
    ensures merged { IfOk result (λ info. info ≡ merged local.now remote.now) }
    ensures valid { IfOk result IsInfo }
{
    Ok(Info {
        version: remote.version,
        e2ee: *later(&local.e2ee, &remote.e2ee),
        active: later(&local.active, &remote.active).copy(alloc)?,
        keys: joined(alloc, local.keys.as_slice(), remote.keys.as_slice())?,
        others: remote.others.copy(alloc)?,
    })
}
