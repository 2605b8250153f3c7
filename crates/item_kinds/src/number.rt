ghost use Rattle.std.specs.Prelude.{◌≡◌, ◌≤◌, ◌^◌, IfSome, IfNone};
ghost use Rattle.std.specs.Str.Parse.{IsNumeral, digits_value};

use jop_base::read_decimal;

/// The number that decimal digits write. None if the text is empty, has another byte, or the number is too large.
pub(crate) fn read_number(text: &[u8]) -> Option<u64>
    ensures some { IfSome result
        (λ number. IsNumeral 10 text.now × (digits_value 10 text.now ≡ number)) }
    ensures none { IfNone result (IsNumeral 10 text.now → 2 ^ 64 ≤ digits_value 10 text.now) }
{
    read_decimal(text)
}
