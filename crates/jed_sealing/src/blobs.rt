ghost use Rattle.std.specs.Prelude.{◌≡◌, ◌<◌, ◌≤◌, ◌*◌, ◌++◌, ◌∷◌, [], Ok, length, IfOk, OnOk};
ghost use Rattle.base64.specs.GeneralPurpose.{IsBytes};
ghost use Rattle.jed_format.specs.Base64.{encoded};
ghost use Rattle.jed_format.specs.Opening.{blob_in};
ghost use Rattle.jed_format.specs.Sealed.{blob_pieces};
ghost use Rattle.jed_format.specs.Write.{IsBrief};
ghost use Rattle.jed_text.specs.Escape.{escaped_units};
ghost use Rattle.jed_sealing.specs.Drawing.{IsMadeOfDrawn, grain_of};
ghost use Rattle.jed_sealing.specs.Sealing.{parts_of_blob, sealed_blob, sealed_piece, sealed_pieces};
ghost use Rattle.jed_sealing.specs.Spending.{Spends};

use crate::pieces::add_sealed;
use crate::seal_err::SealErr;
use crate::strength::Strength;
use base64::engine::general_purpose::STANDARD;
use jed_format::{Jed, SjclChunk};
use jed_text::{escape_units, units_of};
use jop_base::{Bytes, Id, Seq};
use jop_outside::Entropy;
use std::alloc::{AllocError, Global};

/// A part of a blob as base64, escaped.
#[tactic(auto, using(crate::proofs::Parts::units_of_encoded), unfolding(jed_format::specs::Base64::encoded))]
fn part_piece(alloc: Global, part: &[u8]) -> Result<Bytes, AllocError>
    ensures { IfOk result (λ piece. piece ≡ escaped_units (encoded part.now)) }
{
    let text = STANDARD.encode(alloc, part)?;
    let units = units_of(alloc, text.as_str())?;
    let piece = escape_units(alloc, &units)?;
    Ok(piece)
}

/// Seals a part of a blob by numbers that are drawn for it, and adds it to the others.
#[tactic(auto, using(crate::proofs::Parts::part_short))]
fn add_part<N: Entropy>(
    alloc: Global,
    chunks: &mut Seq<SjclChunk>,
    digits: &[u8],
    part: &[u8],
    entropy: &mut N,
) -> Result<(), SealErr>
    requires few { length part.now ≤ 3750 }
    ensures added { let piece = escaped_units (encoded part.now) in
        OnOk result (IsMadeOfDrawn
        (λ bytes. chunks.old ++ sealed_piece digits.now Strength.OfText piece (grain_of bytes) ∷ [])
        24 (N.state entropy.old).left chunks.new (N.state entropy.new).left) }
    ensures spends { Spends (N.state entropy.old).faults result (N.state entropy.new).faults }
{
    let piece = part_piece(alloc, part)?;
    add_sealed(alloc, chunks, digits, &piece, entropy)?;
    Ok(())
}

/// Seals the parts of a blob one after the other, each by numbers that are drawn for it.
fn seal_parts<N: Entropy>(
    alloc: Global,
    digits: &[u8],
    blob: &[u8],
    entropy: &mut N,
) -> Result<Seq<SjclChunk>, SealErr>
    ensures sealed { let pieces = blob_pieces (parts_of_blob blob.now) in
        IfOk result (λ chunks. IsMadeOfDrawn (sealed_pieces digits.now pieces) (24 * length pieces)
        (N.state entropy.old).left chunks (N.state entropy.new).left) }
    ensures spends { Spends (N.state entropy.old).faults result (N.state entropy.new).faults }
{
    let mut chunks = Seq::new(alloc);
    for n in 0..(blob.len() + 3_749) / 3_750 {
        let end = (3_750 * n + 3_750).min(blob.len());
        add_part(alloc, &mut chunks, digits, &blob[3_750 * n..end], entropy)?;
    }
    Ok(chunks)
}

/// Does nothing. A contract learns from it that these are bytes.
fn prove_bytes(bytes: &[u8])
    ensures { IsBytes bytes.now }
{}

/// Seals a blob under the key of this id, whose digits are the password, in parts of 3,750 bytes, each as base64.
/// `EntropyFault` if the random source failed.
pub fn seal_bytes<N: Entropy>(
    alloc: Global,
    key: &Id,
    digits: &[u8],
    blob: &Bytes,
    entropy: &mut N,
) -> Result<Jed, SealErr>
    ensures blob { let count = 24 * length (blob_pieces (parts_of_blob blob.now)) in
        IfOk result (λ jed. IsMadeOfDrawn (sealed_blob key.now digits.now blob.now) count
        (N.state entropy.old).left jed (N.state entropy.new).left) }
    ensures opens { IfOk result (λ jed. blob_in digits.now jed ≡ Ok blob.now) }
    ensures brief { IfOk result IsBrief }
    ensures spends { Spends (N.state entropy.old).faults result (N.state entropy.new).faults }
{
    prove_bytes(blob.as_slice());
    let chunks = seal_parts(alloc, digits, blob.as_slice(), entropy)?;
    Ok(Jed {
        method: 5,
        key: *key,
        chunks,
    })
}
