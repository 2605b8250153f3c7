ghost use Rattle.std.specs.Prelude.{◌*◌, length, IfOk};
ghost use Rattle.std.specs.Str.{IsUtf8};
ghost use Rattle.jed_text.specs.Escape.{pieces_of};
ghost use Rattle.jed_format.specs.Sealed.{IsSealedText};
ghost use Rattle.jed_format.specs.Write.{IsBrief};
ghost use Rattle.jed_sealing.specs.Drawing.{IsMadeOfDrawn};
ghost use Rattle.jed_sealing.specs.Sealing.{sealed_text};
ghost use Rattle.jed_sealing.specs.Spending.{Spends};

use crate::pieces::seal_pieces;
use crate::seal_err::SealErr;
use jed_format::{Jed, escape};
use jop_base::{Id, Text};
use jop_outside::Entropy;
use std::alloc::Global;

/// Does nothing. A contract learns from it that a text is UTF-8.
fn prove_text(text: &Text)
    ensures { IsUtf8 text.now }
{
    let _letters = text.as_str();
}

/// Seals a text under the key of this id, whose digits are the password, in pieces of 5,000 units of UTF-16.
/// `EntropyFault` if the random source failed.
#[tactic(auto, using(crate::proofs::Short::short_pieces))]
pub fn seal_text<N: Entropy>(
    alloc: Global,
    key: &Id,
    digits: &[u8],
    text: &Text,
    entropy: &mut N,
) -> Result<Jed, SealErr>
    ensures text { let count = 24 * length (pieces_of text.now) in
        IfOk result (λ jed. IsMadeOfDrawn (sealed_text key.now digits.now text.now) count
        (N.state entropy.old).left jed (N.state entropy.new).left) }
    ensures sealed { IfOk result (IsSealedText digits.now text.now) }
    ensures brief { IfOk result IsBrief }
    ensures spends { Spends (N.state entropy.old).faults result (N.state entropy.new).faults }
{
    prove_text(text);
    let pieces = escape(alloc, text)?;
    let chunks = seal_pieces(alloc, digits, &pieces, entropy)?;
    Ok(Jed {
        method: 5,
        key: *key,
        chunks,
    })
}
