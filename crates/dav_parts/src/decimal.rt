ghost use Rattle.std.specs.Prelude.{◌≡◌, ◌++◌, OnOk, decimal};

use jop_base::{Bytes, decimal_text};
use std::alloc::{AllocError, Global};

/// Writes a number in decimal at the end of a text.
pub fn append_decimal(alloc: Global, text: &mut Bytes, number: u64) -> Result<(), AllocError>
    ensures { OnOk result (text.new ≡ text.old ++ decimal number) }
{
    let digits = decimal_text(alloc, number)?;
    text.append(digits.as_slice())?;
    Ok(())
}
