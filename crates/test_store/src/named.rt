ghost use Rattle.std.specs.Prelude.{◌≡◌, IfOk, true};
ghost use Rattle.item_kinds.specs.Made.{IsLine};
ghost use Rattle.item_text.specs.Lines.{trimmed};
ghost use Rattle.jop_base.specs.Id.{is_digit};

use jop_base::{Bytes, Id, Text};
use std::alloc::{AllocError, Global};

/// 13 September 2020, 12:26:40, in milliseconds since 1970.
pub const NOW: u64 = 1_600_000_000_000;

/// The id of 32 times this digit.
#[tactic(auto, using(crate::proofs::Ids::repeated_id))]
pub fn id(digit: u8) -> Id
    requires { is_digit digit ≡ true }
{
    match Id::read(&[digit; 32]) {
        Some(id) => id,
        None => unreachable!(),
    }
}

pub fn bytes(alloc: Global, content: &[u8]) -> Result<Bytes, AllocError> {
    let mut bytes = Bytes::new(alloc);
    bytes.append(content)?;
    Ok(bytes)
}

/// A text on one line.
pub fn line(alloc: Global, letters: &str) -> Result<Text, AllocError>
    requires { IsLine letters.now }
    ensures { IfOk result (λ line. IsLine line) }
{
    Text::of(alloc, letters)
}

/// A type of content, on one line and without blanks at its ends.
#[tactic(auto, unfolding(item_text::specs::Lines::trimmed))]
pub fn plain_mime(alloc: Global) -> Result<Text, AllocError>
    ensures line { IfOk result (λ mime. IsLine mime) }
    ensures trimmed { IfOk result (λ mime. trimmed mime ≡ mime) }
{
    let mime = Text::of(alloc, "text/plain")?;
    Ok(mime)
}
