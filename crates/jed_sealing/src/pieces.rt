ghost use Rattle.std.specs.Prelude.{◌≡◌, ◌<◌, ◌*◌, ◌++◌, ◌∷◌, [], All, length, IfOk, OnOk};
ghost use Rattle.jed_sealing.specs.Drawing.{IsMadeOfDrawn, grain_of};
ghost use Rattle.jed_sealing.specs.Sealing.{sealed_piece, sealed_pieces};
ghost use Rattle.jed_sealing.specs.Spending.{Spends};

use crate::grain::draw_grain;
use crate::piece::seal_piece;
use crate::seal_err::SealErr;
use crate::strength::Strength;
use jed_format::SjclChunk;
use jop_base::{Bytes, Seq};
use jop_outside::Entropy;
use std::alloc::Global;

/// Seals a piece by numbers that are drawn for it, and adds it to the others.
pub(crate) fn add_sealed<N: Entropy>(
    alloc: Global,
    chunks: &mut Seq<SjclChunk>,
    digits: &[u8],
    piece: &Bytes,
    entropy: &mut N,
) -> Result<(), SealErr>
    requires short { length piece.now < 65536 }
    ensures added { OnOk result (IsMadeOfDrawn
        (λ bytes. chunks.old ++ sealed_piece digits.now Strength.OfText piece.now (grain_of bytes) ∷ [])
        24 (N.state entropy.old).left chunks.new (N.state entropy.new).left) }
    ensures spends { Spends (N.state entropy.old).faults result (N.state entropy.new).faults }
{
    let grain = draw_grain(entropy)?;
    let chunk = seal_piece(alloc, digits, Strength::OfText, piece.as_slice(), &grain)?;
    chunks.push(chunk)?;
    Ok(())
}

/// Seals pieces one after the other, each by numbers that are drawn for it.
pub(crate) fn seal_pieces<N: Entropy>(
    alloc: Global,
    digits: &[u8],
    pieces: &[Bytes],
    entropy: &mut N,
) -> Result<Seq<SjclChunk>, SealErr>
    requires short { All (λ piece. length piece < 65536) pieces.now }
    ensures sealed { IfOk result (λ chunks. IsMadeOfDrawn (sealed_pieces digits.now pieces.now)
        (24 * length pieces.now) (N.state entropy.old).left chunks (N.state entropy.new).left) }
    ensures spends { Spends (N.state entropy.old).faults result (N.state entropy.new).faults }
{
    let mut chunks = Seq::new(alloc);
    for piece in pieces {
        add_sealed(alloc, &mut chunks, digits, piece, entropy)?;
    }
    Ok(chunks)
}
