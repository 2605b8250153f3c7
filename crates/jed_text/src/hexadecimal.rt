ghost use Rattle.std.specs.Prelude.{◌≡◌, ◌<◌, IfSome};
ghost use Rattle.jed_text.specs.Hexadecimal.{digit_of, digit_number, number_of_two, number_of_four};

/// The upper-case hexadecimal digit of the lowest four bits.
pub(crate) fn digit_of(n: u16) -> u8
    ensures { result ≡ digit_of n }
{
    let low = (n % 16) as u8;
    if low < 10 { 48 + low } else { 55 + low }
}

/// What a hexadecimal digit counts, in either case.
fn value_of(unit: u16) -> Option<u16>
    ensures value { result ≡ digit_number unit }
    ensures bound { IfSome result (λ n. n < 16) }
{
    match unit {
        48..=57 => Some(unit - 48),
        65..=70 => Some(unit - 55),
        97..=102 => Some(unit - 87),
        _ => None,
    }
}

/// The number that two hexadecimal digits write, each a byte or a unit of UTF-16, in either case.
pub fn two_digits(a: u16, b: u16) -> Option<u16>
    ensures number { result ≡ number_of_two a b }
    ensures bound { IfSome result (λ n. n < 256) }
{
    match (value_of(a), value_of(b)) {
        (Some(a), Some(b)) => Some(16 * a + b),
        _ => None,
    }
}

/// The number that four such digits write.
pub fn four_digits(a: u16, b: u16, c: u16, d: u16) -> Option<u16>
    ensures { result ≡ number_of_four a b c d }
{
    match (two_digits(a, b), two_digits(c, d)) {
        (Some(high), Some(low)) => Some(256 * high + low),
        _ => None,
    }
}
