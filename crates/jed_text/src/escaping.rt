ghost use Rattle.std.specs.Prelude.{◌≡◌, ◌++◌, IfOk, OnOk};
ghost use Rattle.jed_text.specs.Escape.{is_plain, escaped_unit, escaped_units, pieces_of};

use crate::hexadecimal::digit_of;
use crate::units::units_of;
use jop_base::{Bytes, Text};
use std::alloc::{AllocError, Global};

fn is_plain(unit: u16) -> bool
    ensures { result ≡ is_plain unit }
{
    matches!(unit, 65..=90 | 97..=122 | 48..=57 | 64 | 42 | 95 | 43 | 45 | 46 | 47)
}

fn escape_unit(out: &mut Vec<u8>, unit: u16) -> Result<(), AllocError>
    ensures { OnOk result (out.new.items ≡ out.old.items ++ escaped_unit unit) }
{
    if is_plain(unit) {
        out.push(unit as u8)?;
    } else if unit < 256 {
        out.extend_from_slice(&[b'%', digit_of(unit / 16), digit_of(unit)])?;
    } else {
        let high = [digit_of(unit / 4096), digit_of(unit / 256)];
        out.extend_from_slice(&[
            b'%',
            b'u',
            high[0],
            high[1],
            digit_of(unit / 16),
            digit_of(unit),
        ])?;
    }
    Ok(())
}

/// JavaScript's `escape`, of units of UTF-16 in one piece.
#[tactic(auto, using(crate::proofs::EscapeSteps::escaped_step), unfolding(crate::specs::Escape::escaped_units))]
pub fn escape_units(alloc: Global, units: &[u16]) -> Result<Bytes, AllocError>
    ensures { IfOk result (λ bytes. bytes ≡ escaped_units units.now) }
{
    let mut out = Vec::new(alloc);
    for unit in units {
        escape_unit(&mut out, *unit)?;
    }
    Ok(Bytes::from_vec(out))
}

/// JavaScript's `escape`, of pieces of 5,000 units of UTF-16 each, the last perhaps shorter.
#[tactic(auto, using(crate::proofs::EscapeSteps::pieces_step), unfolding(crate::specs::Escape::escaped_pieces))]
pub fn escape(alloc: Global, text: &Text) -> Result<Vec<Bytes>, AllocError>
    ensures { IfOk result (λ pieces. pieces.items ≡ pieces_of text.now) }
{
    let units = units_of(alloc, text.as_str())?;
    let mut pieces = Vec::new(alloc);
    for n in 0..(units.len() + 4_999) / 5_000 {
        let end = (5_000 * n + 5_000).min(units.len());
        let piece = escape_units(alloc, &units[5_000 * n..end])?;
        pieces.push(piece)?;
    }
    Ok(pieces)
}
