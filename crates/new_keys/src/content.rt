ghost use Rattle.std.specs.Prelude.{◌≡◌, true, Ok, drop, length, IfOk};
ghost use Rattle.jed_format.specs.Chunk.{chunk_in};
ghost use Rattle.jed_format.specs.Write.{chunk_text, is_brief};
ghost use Rattle.jed_sealing.specs.Drawing.{grain_of};
ghost use Rattle.new_keys.specs.Made.{IsOpenedTo, made_chunk, made_digits};

use hex::encode_to_slice;
use jed_format::{SjclChunk, write_chunk};
use jed_sealing::{Grain, Strength, seal_piece};
use jop_base::Text;
use std::alloc::{AllocError, Global};

/// The digits of a key: those of 256 bytes.
fn digits_of(bytes: &[u8; 296]) -> [u8; 512]
    ensures { result ≡ made_digits bytes.now }
{
    let mut digits = [0u8; 512];
    let _ = encode_to_slice(&bytes[16..272], &mut digits);
    digits
}

/// The numbers of a seal: 16 bytes, and the 8 behind them.
fn grain_of(seal: &[u8]) -> Grain
    requires { length seal.now ≡ 24 }
    ensures { result ≡ grain_of seal.now }
{
    let mut iv = [0u8; 16];
    iv.copy_from_slice(&seal[..16]);
    let mut salt = [0u8; 8];
    salt.copy_from_slice(&seal[16..]);
    Grain { iv, salt }
}

/// The numbers by which the digits are sealed.
fn seal_of(bytes: &[u8; 296]) -> Grain
    ensures { result ≡ grain_of (drop 272 bytes.now) }
{
    grain_of(&bytes[272..])
}

/// The text of a chunk that may be written.
fn text_of(alloc: Global, chunk: &SjclChunk) -> Result<Text, AllocError>
    requires { is_brief chunk.now ≡ true }
    ensures text { IfOk result (λ text. text ≡ chunk_text chunk.now) }
    ensures reads_back { IfOk result (λ text. chunk_in text 1 ≡ Ok chunk.now) }
{
    let bytes = write_chunk(alloc, chunk)?;
    match Text::read(alloc, bytes.as_slice())? {
        Some(text) => Ok(text),
        None => unreachable!(),
    }
}

/// The digits, sealed under a password.
pub(crate) fn content_of(
    alloc: Global,
    password: &Text,
    bytes: &[u8; 296],
) -> Result<Text, AllocError>
    ensures content { IfOk result
        (λ content. content ≡ chunk_text (made_chunk password.now bytes.now)) }
    ensures opens { IfOk result (IsOpenedTo password.now (made_digits bytes.now)) }
{
    let digits = digits_of(bytes);
    let grain = seal_of(bytes);
    let chunk = seal_piece(alloc, password.as_slice(), Strength::OfKey, &digits, &grain)?;
    let content = text_of(alloc, &chunk)?;
    Ok(content)
}
