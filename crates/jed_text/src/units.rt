ghost use Rattle.std.specs.Prelude.{◌≡◌, IfOk, length};
ghost use Rattle.jed_text.specs.Units.{units_of, units_in, text_of};

use jop_base::Text;
use std::alloc::{AllocError, Global};

/// The units of UTF-16 of a text.
#[tactic(auto, unfolding(crate::specs::Units::units_of))]
pub fn units_of(alloc: Global, text: &str) -> Result<Vec<u16>, AllocError>
    ensures { IfOk result (λ units. units.items ≡ units_of text.now) }
{
    if text.is_ascii() {
        let units = widened(alloc, text.as_bytes())?;
        return Ok(units);
    }
    let mut units = Vec::with_capacity(alloc, text.len())?;
    for letter in text.chars() {
        let mut pair = [0; 2];
        units.extend_from_slice(letter.encode_utf16(&mut pair))?;
    }
    Ok(units)
}

/// The units of bytes: those of the text that they are, and each byte by itself if they aren't UTF-8.
pub(crate) fn units_in(alloc: Global, bytes: &[u8]) -> Result<Vec<u16>, AllocError>
    ensures { IfOk result (λ units. units.items ≡ units_in bytes.now) }
{
    match std::str::from_utf8(bytes) {
        Ok(text) => {
            let units = units_of(alloc, text)?;
            Ok(units)
        }
        Err(_) => {
            let units = widened(alloc, bytes)?;
            Ok(units)
        }
    }
}

/// Puts each byte where a unit is.
fn widen(units: &mut [u16], bytes: &[u8])
    requires { length units.old ≡ length bytes.now }
    ensures { units.new ≡ bytes.now }
{
    for n in 0..bytes.len() {
        units[n] = u16::from(bytes[n]);
    }
}

fn widened(alloc: Global, bytes: &[u8]) -> Result<Vec<u16>, AllocError>
    ensures { IfOk result (λ units. units.items ≡ bytes.now) }
{
    let mut units = vec![in alloc; 0u16; bytes.len()]?;
    widen(&mut units, bytes);
    Ok(units)
}

/// The text that units of UTF-16 spell. Each surrogate that has no partner gives U+FFFD.
#[tactic(auto, unfolding(crate::specs::Units::text_of))]
pub fn units_text(alloc: Global, units: &[u16]) -> Result<Text, AllocError>
    ensures { IfOk result (λ text. text ≡ text_of units.now) }
{
    let letters = String::from_utf16_lossy(alloc, units)?;
    let text = Text::of(alloc, letters.as_str())?;
    Ok(text)
}
