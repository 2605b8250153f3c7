ghost use Rattle.std.specs.Prelude.{◌≡◌, ◌*◌, ℕ, List, Some, Ok, length, IfOk, IfErr};
ghost use Rattle.jed_format.specs.Sealed.{blob_pieces};
ghost use Rattle.jed_sealing.specs.Drawing.{IsMadeOfDrawn};
ghost use Rattle.jed_sealing.specs.Sealing.{parts_of_blob};
ghost use Rattle.jed_sealing.specs.Spending.{Spends};
ghost use Rattle.master_keys.specs.Rings.{RingNow, digits_of};
ghost use Rattle.master_keys.specs.SealedBlobs.{BlobOpensUnder, IsBlobSealed, blob_text, open_blob_by};
ghost use Rattle.master_keys.specs.SealedUnder.{IsUnsealed};

use crate::key_err::KeyErr;
use crate::ring::Ring;
use jed_format::write_jed;
use jed_sealing::{SealErr, seal_bytes};
use jop_base::{Bytes, Id};
use jop_outside::Entropy;
use std::alloc::Global;

/// The bytes of a blob that is sealed under a key.
fn blob_text<N: Entropy>(
    alloc: Global,
    blob: &Bytes,
    key: &Id,
    digits: &[u8],
    entropy: &mut N,
) -> Result<Bytes, SealErr>
    ensures text { let count = 24 * length (blob_pieces (parts_of_blob blob.now)) in
        IfOk result (λ text. IsMadeOfDrawn (blob_text key.now digits.now blob.now) count
        (N.state entropy.old).left text (N.state entropy.new).left) }
    ensures opens { IfOk result (BlobOpensUnder key.now digits.now blob.now) }
    ensures spends { Spends (N.state entropy.old).faults result (N.state entropy.new).faults }
{
    let jed = seal_bytes(alloc, key, digits, blob, entropy)?;
    let text = write_jed(alloc, &jed)?;
    Ok(text)
}

/// Seals a blob under the active key. `NoKey` with the id of the active key exactly if that isn't here and open; else
/// `EntropyFault` if the random source failed.
pub fn seal_blob<N: Entropy>(
    alloc: Global,
    blob: &Bytes,
    ring: &mut Ring,
    entropy: &mut N,
) -> Result<Bytes, KeyErr>
    ensures ok { IfOk result (λ text. IsBlobSealed ring.old blob.now
        (N.state entropy.old).left text (N.state entropy.new).left) }
    // A ring that has the key opens it to the blob again.
    ensures opens { IfOk result (λ text. (other : RingNow) (key : List ℕ) → ring.old.active ≡ Some key
        → digits_of other key ≡ digits_of ring.old key → open_blob_by other text ≡ Ok blob.now) }

    ensures stays { IfOk result (λ text. (N.state entropy.new).faults ≡ (N.state entropy.old).faults) }
    ensures err { IfErr result (λ e.
        IsUnsealed ring.old (N.state entropy.old).faults e (N.state entropy.new).faults) }
    ensures kept { ring.new ≡ ring.old }
{
    let (key, digits) = ring.active_key(alloc)?;
    let text = blob_text(alloc, blob, &key, digits.as_slice(), entropy)?;
    Ok(text)
}
