ghost use Rattle.std.specs.Prelude.{◌≡◌, ◌+◌, ◌%◌, ◌^◌, ◌<◌, ◌↔◌, IfSome, IfNone, IsTrue, true};
ghost use Rattle.jop_base.specs.Order.{first_two};
ghost use Rattle.jop_base.specs.Id.{IsIdText, is_digit, AreDigits, number_of, digit_after};

use crate::copied::Copied;
use std::alloc::{AllocError, Global};
use std::fmt;
use std::marker::Model;

/// 32 lower-case hexadecimal digits. Their order is that of the digits.
#[derive(Clone, Copy, Debug, PartialEq, Eq, PartialOrd, Ord)]
pub struct Id {
    digits: [u8; 32],
}

/// The id that a client has on all targets.
pub type ClientId = Id;

impl Model for Id {
    ghost use Rattle.std.specs.Prelude.{List, ℕ};
    ghost use Rattle.jop_base.specs.Id.{IsIdText};

    ghost Value = { List ℕ };

    ghost view = { λ i. i.digits };

    ghost invariant = { λ i. IsIdText i.digits };

    ghost inverse = { λ v. record { digits = v } };
}

fn is_digit(byte: u8) -> bool
    ensures { result ≡ is_digit byte }
{
    matches!(byte, b'0'..=b'9' | b'a'..=b'f')
}

fn are_digits(text: &[u8]) -> bool
    ensures { IsTrue result ↔ AreDigits text.now }
{
    for byte in text {
        if !is_digit(*byte) {
            return false;
        }
    }
    true
}

impl Id {
    /// The id that a text spells. None exactly if it isn't 32 bytes, each `0` to `9` or `a` to `f`.
    pub fn read(text: &[u8]) -> Option<Id>
        ensures some { IfSome result (λ id. (id ≡ text.now) × IsIdText text.now) }
        ensures none { IfNone result (¬ IsIdText text.now) }
    {
        let digits: [u8; 32] = match text.try_into() {
            Ok(digits) => digits,
            Err(_) => return None,
        };
        if are_digits(text) {
            Some(Id { digits })
        } else {
            None
        }
    }

    /// Does nothing. A contract learns from it that the digits are digits.
    pub fn prove_valid(&self)
        ensures { IsIdText self.now }
    {
        let _ = &self.digits;
    }

    pub fn digits(&self) -> [u8; 32]
        ensures same { result ≡ self.now }
        ensures digits { IsIdText self.now }
    {
        self.digits
    }

    /// The digits as text.
    pub fn as_str(&self) -> &str
        ensures same { result.now ≡ self.now }
        ensures digits { IsIdText self.now }
    {
        match std::str::from_utf8(&self.digits) {
            Ok(text) => text,
            Err(_) => unreachable!(),
        }
    }

    /// The first two digits, as a number of two bytes.
    pub(crate) fn first_two(&self) -> u32
        ensures two { result ≡ first_two self.now }
        ensures small { result < 2 ^ 16 }
    {
        256 * u32::from(self.digits[0]) + u32::from(self.digits[1])
    }

    /// The next number, and 0 after the greatest.
    pub fn after(&self) -> Id
        ensures next { number_of result ≡ (number_of self.now + 1) % 16 ^ 32 }
        ensures digits { IsIdText result }
    {
        let mut digits = self.digits;
        for place in (0..32).rev() {
            let digit = digits[place];
            digits[place] = digit_after(digit);
            if digit != b'f' {
                return Id { digits };
            }
        }
        Id { digits }
    }
}

/// The digit of one more, and 0 after the greatest.
fn digit_after(digit: u8) -> u8
    requires { is_digit digit ≡ true }
    ensures { result ≡ digit_after digit }
{
    match digit {
        b'9' => b'a',
        b'f' => b'0',
        _ => digit + 1,
    }
}

impl Copied for Id {
    fn copy(&self, _alloc: Global) -> Result<Id, AllocError> {
        Ok(*self)
    }
}

impl fmt::Display for Id {
    ghost use Rattle.std.specs.Prelude.{Some};
    ghost use Rattle.std.specs.Fmt.{padded};

    ghost output = { λ id. Some id };

    ghost styled_output = { λ id spec. Some (padded spec id) };

    fn fmt<W: fmt::Write>(&self, f: &mut fmt::Formatter<W>) -> fmt::Result {
        f.pad(self.as_str())
    }
}
