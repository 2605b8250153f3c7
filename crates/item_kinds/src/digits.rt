ghost use Rattle.std.specs.Prelude.{◌≡◌, ◌+◌, ◌<◌, ◌≤ℤ◌, ℕ, pos, Some, IfSome};
ghost use Rattle.item_kinds.specs.Times.{two_digits, three_digits, four_digits};

pub(crate) fn two_digits(number: u8) -> [u8; 2]
    requires { number < 100 }
    ensures { result ≡ two_digits number }
{
    [b'0' + number / 10, b'0' + number % 10]
}

pub(crate) fn three_digits(number: u16) -> [u8; 3]
    requires { number < 1_000 }
    ensures { result ≡ three_digits number }
{
    let [tens, ones] = two_digits((number % 100) as u8);
    [b'0' + (number / 100) as u8, tens, ones]
}

pub(crate) fn four_digits(number: u16) -> [u8; 4]
    requires { number < 10_000 }
    ensures { result ≡ four_digits number }
{
    let [thousands, hundreds] = two_digits((number / 100) as u8);
    let [tens, ones] = two_digits((number % 100) as u8);
    [thousands, hundreds, tens, ones]
}

/// What a decimal digit counts.
fn digit(byte: u8) -> Option<u8>
    ensures digit { (n : ℕ) → n < 10 → byte ≡ 48 + n → result ≡ Some n }
    ensures below { IfSome result (λ n. n < 10) }
{
    match byte {
        b'0'..=b'9' => Some(byte - b'0'),
        _ => None,
    }
}

/// The number that two digits write.
pub(crate) fn read_two(text: &[u8]) -> Option<i8>
    ensures digits { (n : ℕ) → n < 100 → text.now ≡ two_digits n → result ≡ Some (pos n) }
    ensures low { IfSome result (λ n. pos 0 ≤ℤ n) }
    ensures high { IfSome result (λ n. n ≤ℤ pos 99) }
{
    let [tens, ones] = text else {
        return None;
    };
    Some((digit(*tens)? * 10 + digit(*ones)?) as i8)
}

/// The number that three digits write.
pub(crate) fn read_three(text: &[u8]) -> Option<i32>
    ensures digits { (n : ℕ) → n < 1_000 → text.now ≡ three_digits n → result ≡ Some (pos n) }
    ensures low { IfSome result (λ n. pos 0 ≤ℤ n) }
    ensures high { IfSome result (λ n. n ≤ℤ pos 999) }
{
    let [hundreds, rest @ ..] = text else {
        return None;
    };
    Some(digit(*hundreds)? as i32 * 100 + read_two(rest)? as i32)
}

/// The number that four digits write.
pub(crate) fn read_four(text: &[u8]) -> Option<i16>
    ensures { (n : ℕ) → n < 10_000 → text.now ≡ four_digits n → result ≡ Some (pos n) }
{
    let (hundreds, rest) = text.split_at_checked(2)?;
    Some(read_two(hundreds)? as i16 * 100 + read_two(rest)? as i16)
}
