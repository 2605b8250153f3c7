ghost use Rattle.std.specs.Prelude.{◌≡◌, ◌≢◌, ◌++◌, [], true, Ok, Some, IfOk, IfErr, IfSome, OnOk, option_map};
ghost use Rattle.std.specs.List.{AllByRecursion};
ghost use Rattle.std.specs.Result.{result_ok};
ghost use Rattle.jop_base.specs.Id.{is_id};
ghost use Rattle.jed_format.specs.Chunk.{chunk_in, is_chunk, passing};
ghost use Rattle.master_keys.specs.Refusing.{IsMeant};
ghost use Rattle.master_keys.specs.Rings.{before_keys, locked_key, locked_keys, ring_of};
ghost use Rattle.master_keys.specs.Unlocking.{unlocked};

use crate::key_err::KeyErr;
use crate::locked_key::LockedKey;
use crate::ring::Ring;
use jed_format::{JedErr, SjclChunk, read_chunk};
use jop_base::{Copied, Id, Seq, Text};
use std::alloc::{AllocError, Global};
use sync_info::{Info, KeyRecord};

/// Nothing, unless memory ran out.
fn refused(error: JedErr) -> Result<(), AllocError>
    ensures { OnOk result (error ≢ JedErr.NoMemory) }
{
    match error {
        JedErr::NoMemory => Err(AllocError),
        _ => Ok(()),
    }
}

/// The chunk of a text, if it is readable.
#[tactic(auto, using(crate::proofs::Causes::refused_none))]
fn chunk_of(alloc: Global, text: &Text) -> Result<Option<SjclChunk>, AllocError>
    ensures chunk { IfOk result (λ found. found ≡ result_ok (chunk_in text.now 1)) }
    ensures valid { IfOk result (λ found. IfSome found (λ chunk. is_chunk chunk ≡ true)) }
{
    match read_chunk(alloc, text.as_slice(), 1) {
        Ok(chunk) => Ok(Some(chunk)),
        Err(error) => {
            refused(error)?;
            Ok(None)
        }
    }
}

/// The key of a record, if that is readable.
fn locked_key(alloc: Global, known: &KeyRecord) -> Result<Option<LockedKey>, AllocError>
    ensures key { IfOk result (λ found. found ≡ locked_key known.now) }
    ensures valid { IfOk result (λ found. IfSome found (λ key. is_chunk key.chunk ≡ true)) }
{
    match chunk_of(alloc, &known.content)? {
        Some(chunk) => Ok(Some(LockedKey {
            id: known.id,
            chunk,
        })),
        None => Ok(None),
    }
}

/// Adds the key of a record to others, if the record is readable.
fn add_locked(alloc: Global, keys: &mut Seq<LockedKey>, known: &KeyRecord) -> Result<(), AllocError>
    requires valid { AllByRecursion (λ key. is_chunk key.chunk ≡ true) keys.old }
    ensures added { OnOk result (keys.new ≡ keys.old ++ before_keys (locked_key known.now) []) }
    ensures valid { AllByRecursion (λ key. is_chunk key.chunk ≡ true) keys.new }
{
    match locked_key(alloc, known)? {
        Some(key) => {
            keys.push(key)?;
            Ok(())
        }
        None => Ok(()),
    }
}

/// The keys of records that are readable.
fn locked_keys(alloc: Global, records: &[KeyRecord]) -> Result<Seq<LockedKey>, AllocError>
    ensures keys { IfOk result (λ keys. keys ≡ locked_keys records.now) }
    ensures valid { IfOk result (AllByRecursion (λ key. is_chunk key.chunk ≡ true)) }
{
    let mut keys = Seq::new(alloc);
    for known in records {
        add_locked(alloc, &mut keys, known)?;
    }
    Ok(keys)
}

/// The id that a text spells, if it spells one.
fn id_in(text: &Text) -> Option<Id>
    ensures { result ≡ passing is_id (Some text.now) }
{
    Id::read(text.as_slice())
}

/// The ring of an info under a password, none of whose keys was tried.
fn ring_under(alloc: Global, info: &Info, password: Option<Text>) -> Result<Ring, AllocError>
    ensures { IfOk result (λ ring. ring ≡ ring_of info.now password) }
{
    let locked = locked_keys(alloc, info.keys.as_slice())?;
    let active = id_in(&info.active.value);
    Ok(Ring::of(alloc, password, locked, active, info.e2ee.value))
}

/// The ring of an info under a password that is given.
fn open_ring(alloc: Global, info: &Info, password: &Text) -> Result<Ring, KeyErr>
    ensures ok { IfOk result (λ ring. unlocked info.now (Some password.now) ≡ Ok ring) }
    ensures err { IfErr result (IsMeant (unlocked info.now (Some password.now))) }
{
    let own = password.copy(alloc)?;
    let mut ring = ring_under(alloc, info, Some(own))?;
    match ring.shut_active(alloc)? {
        Some(key) => Err(KeyErr::BadPassword(key)),
        None => Ok(ring),
    }
}

/// The keys of an info that open under a password; none does where none is given. `BadPassword` with the id of the
/// active key exactly if a password is given, and the record of that key is readable and doesn't open under it. No
/// other record is opened here.
pub fn unlock(alloc: Global, info: &Info, password: Option<&Text>) -> Result<Ring, KeyErr>
    ensures ok { let known = option_map (λ text. text.now) password.entry in
        IfOk result (λ ring. unlocked info.now known ≡ Ok ring) }
    ensures err { let known = option_map (λ text. text.now) password.entry in
        IfErr result (IsMeant (unlocked info.now known)) }
{
    match password {
        None => {
            let ring = ring_under(alloc, info, None)?;
            Ok(ring)
        }
        Some(password) => open_ring(alloc, info, password),
    }
}
