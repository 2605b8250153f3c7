ghost use Rattle.std.specs.Prelude.{◌≡◌, ◌≤◌, ℕ, List, IfOk};
ghost use Rattle.jed_sealing.specs.Drawing.{IsMadeOfDrawn};
ghost use Rattle.jed_sealing.specs.Spending.{Spends};
ghost use Rattle.jop_base.specs.Times.{last_time};
ghost use Rattle.jop_outside.specs.Outside.{HasCause};
ghost use Rattle.new_keys.specs.Made.{OpensFor, drawn_bytes, made_record};
ghost use Rattle.sync_info.specs.Info.{IsKeyRecord};

use crate::content::content_of;
use crate::id::id_of;
use crate::members::made_members;
use jed_sealing::SealErr;
use jop_base::Text;
use jop_outside::{Entropy, Failed};
use std::alloc::{AllocError, Global};
use sync_info::KeyRecord;

/// Random bytes for a key, its id and its seal.
#[tactic(auto, using(jed_sealing::proofs::Drawn::drawn_of_filled))]
fn draw_bytes<N: Entropy>(entropy: &mut N) -> Result<[u8; 296], Failed>
    ensures drawn { IfOk result (λ bytes. IsMadeOfDrawn drawn_bytes 296
        (N.state entropy.old).left bytes (N.state entropy.new).left) }
    ensures cause { HasCause (N.state entropy.old).faults result (N.state entropy.new).faults }
{
    let mut bytes = [0u8; 296];
    entropy.fill(&mut bytes)?;
    Ok(bytes)
}

/// The record of a key that is made of these bytes, at a time in milliseconds since 1970.
fn record_of(
    alloc: Global,
    password: &Text,
    now: u64,
    bytes: &[u8; 296],
) -> Result<KeyRecord, AllocError>
    requires time { now ≤ last_time }
    ensures made { IfOk result (λ key. key ≡ made_record password.now now bytes.now) }
    ensures valid { IfOk result IsKeyRecord }
    ensures opens { IfOk result (OpensFor password.now) }
{
    let id = id_of(&bytes[..16]);
    id.prove_valid();
    let content = content_of(alloc, password, bytes)?;
    let others = made_members(alloc, now)?;
    Ok(KeyRecord {
        id,
        content,
        updated: now,
        others,
    })
}

/// Makes a master key, at a time in milliseconds since 1970: 256 random bytes, whose 512 hexadecimal digits are sealed
/// under the password. Its id, its digits, and the numbers that it is sealed by, are the next bytes of the source.
/// `EntropyFault` if that failed.
pub fn make_key<N: Entropy>(
    alloc: Global,
    password: &Text,
    now: u64,
    entropy: &mut N,
) -> Result<KeyRecord, SealErr>
    requires time { now ≤ last_time }
    ensures made { IfOk result (λ key. IsMadeOfDrawn (made_record password.now now) 296
        (N.state entropy.old).left key (N.state entropy.new).left) }
    ensures valid { IfOk result IsKeyRecord }
    ensures opens { IfOk result (OpensFor password.now) }
    ensures spends { Spends (N.state entropy.old).faults result (N.state entropy.new).faults }
{
    let bytes = draw_bytes(entropy)?;
    let key = record_of(alloc, password, now, &bytes)?;
    Ok(key)
}
