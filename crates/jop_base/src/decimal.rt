ghost use Rattle.std.specs.Prelude.{◌≡◌, IfOk, decimal};
ghost use Rattle.std.specs.Char.{is_ascii_digit};
ghost use Rattle.std.specs.List.{list_all};
ghost use Rattle.jop_base.specs.Decimals.{decimal_in};

use crate::text::Text;
use std::alloc::{AllocError, Global};

/// Whether each byte is a decimal digit.
pub fn are_decimal_digits(text: &[u8]) -> bool
    ensures { result ≡ list_all is_ascii_digit text.now }
{
    text.iter().all(|byte| byte.is_ascii_digit())
}

/// The number that decimal digits write, leading zeros among them. None if the text is empty or has another byte, or if
/// the number is 2^64 or more.
pub fn read_decimal(text: &[u8]) -> Option<u64>
    ensures { result ≡ decimal_in text.now }
{
    if !are_decimal_digits(text) {
        return None;
    }
    match std::str::from_utf8(text) {
        Ok(digits) => digits.parse().ok(),
        Err(_) => unreachable!(),
    }
}

/// A number in decimal digits, without leading zeros.
pub fn decimal_text(alloc: Global, number: u64) -> Result<Text, AllocError>
    ensures { IfOk result (λ text. text ≡ decimal number) }
{
    Ok(Text::from_string(format!(in alloc; "{number}")?))
}
