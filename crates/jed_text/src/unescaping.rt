ghost use Rattle.std.specs.Prelude.{◌≡◌, ◌++◌, ◌∷◌, IfOk};
ghost use Rattle.jed_text.specs.Units.{units_in};
ghost use Rattle.jed_text.specs.Escape.{taking, long_escape, escape_in, unit_written, unescaped_behind, unescaped_units};

use crate::hexadecimal::{four_digits, two_digits};
use crate::units::units_in;
use std::alloc::{AllocError, Global};

/// A unit, and how many units behind the per cent sign it takes.
fn taking(count: usize, unit: Option<u16>) -> Option<(u16, usize)>
    ensures { result ≡ taking count unit }
{
    match unit {
        Some(unit) => Some((unit, count)),
        None => None,
    }
}

/// What stands behind a `%u`: four digits.
fn long_escape(units: &[u16]) -> Option<(u16, usize)>
    ensures { result ≡ long_escape units.now }
{
    if units.len() < 4 {
        None
    } else {
        taking(5, four_digits(units[0], units[1], units[2], units[3]))
    }
}

/// What stands behind a per cent sign: `u` and four digits, or two digits.
fn escape_in(units: &[u16]) -> Option<(u16, usize)>
    ensures { result ≡ escape_in units.now }
{
    if units.len() < 2 {
        None
    } else if units[0] == 117 {
        long_escape(&units[1..])
    } else {
        taking(2, two_digits(units[0], units[1]))
    }
}

/// The unit that a unit and those behind it write, and how many of those it takes.
fn taken(unit: u16, units: &[u16]) -> (u16, usize)
    ensures { result ≡ unit_written unit units.now }
{
    if unit == 37 {
        escape_in(units).unwrap_or((unit, 0))
    } else {
        (unit, 0)
    }
}

/// Goes over one unit, of which `skipped` says how many belong to what stood before, and says it of those behind.
fn unescape_one(
    out: &mut Vec<u16>,
    skipped: usize,
    unit: u16,
    units: &[u16],
) -> Result<usize, AllocError>
    ensures { IfOk result (λ more. out.new.items ++ unescaped_behind more units.now
        ≡ out.old.items ++ unescaped_behind skipped (unit ∷ units.now)) }
{
    if skipped > 0 {
        return Ok(skipped - 1);
    }
    let (unit, more) = taken(unit, units);
    out.push(unit)?;
    Ok(more)
}

/// JavaScript's `unescape` of units of UTF-16.
pub fn unescape_units(alloc: Global, units: &[u16]) -> Result<Vec<u16>, AllocError>
    ensures { IfOk result (λ out. out.items ≡ unescaped_units units.now) }
{
    if !units.contains(&37) {
        let plain = Vec::from_slice(alloc, units)?;
        return Ok(plain);
    }
    let mut out = Vec::with_capacity(alloc, units.len())?;
    let mut skipped = 0;
    for n in 0..units.len() {
        let more = unescape_one(&mut out, skipped, units[n], &units[n + 1..])?;
        skipped = more;
    }
    Ok(out)
}

/// JavaScript's `unescape`, as units of UTF-16: `%u` with four hexadecimal digits in either case,
/// or `%` with two, gives that unit; every other character stays. Where the bytes aren't UTF-8,
/// each byte is a character.
pub fn unescape(alloc: Global, text: &[u8]) -> Result<Vec<u16>, AllocError>
    ensures { IfOk result (λ units. units.items ≡ unescaped_units (units_in text.now)) }
{
    let units = units_in(alloc, text)?;
    unescape_units(alloc, &units)
}
