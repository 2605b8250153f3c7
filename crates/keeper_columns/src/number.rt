ghost use Rattle.std.specs.Prelude.{◌≡◌, ◌<◌, ◌^◌, ℕ, IfOk, Some, decimal};

use crate::record_err::RecordErr;
use jop_base::{Bytes, decimal_text, read_decimal};
use std::alloc::{AllocError, Global};

/// A number in decimal.
pub fn number_text(alloc: Global, number: u64) -> Result<Bytes, AllocError>
    ensures { IfOk result (λ text. text ≡ decimal number) }
{
    Ok(decimal_text(alloc, number)?.into_bytes())
}

/// What is read of digits, among which leading zeros may stand.
fn parsed(text: &[u8]) -> Option<u64>
    ensures { (n : ℕ) → n < 2 ^ 64 → text.now ≡ decimal n → result ≡ Some n }
{
    read_decimal(text)
}

/// The number that a text writes in decimal, as `number_text` does: without sign and leading zeros.
pub fn read_number(alloc: Global, text: &[u8]) -> Result<u64, RecordErr>
    ensures ok { IfOk result (λ number. text.now ≡ decimal number) }
    ensures bad { result ≡ Err RecordErr.Bad → (n : ℕ) → n < 2 ^ 64 → ¬ (text.now ≡ decimal n) }
{
    let number = match parsed(text) {
        Some(number) => number,
        None => return Err(RecordErr::Bad),
    };
    if number_text(alloc, number)?.as_slice() != text {
        return Err(RecordErr::Bad);
    }
    Ok(number)
}
