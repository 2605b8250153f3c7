ghost use Rattle.std.specs.Prelude.{◌≡◌, ◌++◌, ℕ, All, decimal, string_bytes, true, IfOk, OnOk, Ok};
ghost use Rattle.std.specs.List.{AllPass};
ghost use Rattle.std.specs.Str.{IsUtf8};
ghost use Rattle.base64.specs.GeneralPurpose.{IsBytes};
ghost use Rattle.jed_format.specs.Base64.{encoded};
ghost use Rattle.jed_format.specs.Chunk.{is_chunk, chunk_in};
ghost use Rattle.jed_format.specs.Jed.{jed_in};
ghost use Rattle.jed_format.specs.Write.{sizes_text, chunk_text, digit, six_digits, framed_chunk, jed_text, are_visible, IsJed, IsSjcl};

use crate::jed::Jed;
use crate::sjcl_chunk::SjclChunk;
use base64::engine::general_purpose::STANDARD;
use jop_base::Bytes;
use std::alloc::{AllocError, Global};

/// Does nothing. A contract learns from it that these are bytes.
fn prove_bytes(bytes: &[u8])
    ensures { IsBytes bytes.now }
{}

/// Does nothing. A contract learns from it that the parts of a chunk are bytes.
fn prove_sjcl(chunk: &SjclChunk)
    requires { is_chunk chunk.now ≡ true }
    ensures { IsSjcl chunk.now }
{
    prove_bytes(chunk.iv.as_slice());
    prove_bytes(chunk.salt.as_slice());
    prove_bytes(chunk.ct.as_slice());
}

/// Does nothing. A contract learns from it what `prove_sjcl` tells, of each chunk.
fn prove_all(chunks: &[SjclChunk])
    requires { AllPass is_chunk chunks.now }
    ensures { All IsSjcl chunks.now }
{
    for chunk in chunks {
        prove_sjcl(chunk);
    }
}

/// Adds letters, and bytes as padded base64.
#[tactic(auto, unfolding(crate::specs::Base64::encoded))]
fn append_encoded(text: &mut String, letters: &str, bytes: &Bytes) -> Result<(), AllocError>
    ensures { OnOk result
        (string_bytes text.new ≡ string_bytes text.old ++ (letters.now ++ encoded bytes.now)) }
{
    text.push_str(letters)?;
    STANDARD.encode_string(bytes.as_slice(), text)?;
    Ok(())
}

/// Adds letters, and a number in decimal.
fn append_number(
    alloc: Global,
    text: &mut String,
    letters: &str,
    number: u32,
) -> Result<(), AllocError>
    ensures { OnOk result
        (string_bytes text.new ≡ string_bytes text.old ++ (letters.now ++ decimal number)) }
{
    let digits = format!(in alloc; "{number}")?;
    text.push_str(letters)?;
    text.push_str(digits.as_str())?;
    Ok(())
}

fn append_sizes(alloc: Global, text: &mut String, chunk: &SjclChunk) -> Result<(), AllocError>
    ensures { OnOk result (string_bytes text.new ≡ string_bytes text.old ++ sizes_text chunk.now) }
{
    append_number(alloc, text, "\",\"v\":1,\"iter\":", chunk.iter)?;
    append_number(alloc, text, ",\"ks\":", u32::from(chunk.ks))?;
    append_number(alloc, text, ",\"ts\":", u32::from(chunk.ts))?;
    Ok(())
}

#[tactic(auto, unfolding(crate::specs::Write::chunk_text))]
fn chunk_text(alloc: Global, chunk: &SjclChunk) -> Result<Bytes, AllocError>
    ensures { IfOk result (λ text. text ≡ chunk_text chunk.now) }
{
    let mut text = String::new(alloc);
    append_encoded(&mut text, "{\"iv\":\"", &chunk.iv)?;
    append_sizes(alloc, &mut text, chunk)?;
    append_encoded(
        &mut text,
        ",\"mode\":\"ccm\",\"adata\":\"\",\"cipher\":\"aes\",\"salt\":\"",
        &chunk.salt,
    )?;
    append_encoded(&mut text, "\",\"ct\":\"", &chunk.ct)?;
    text.push_str("\"}")?;
    Ok(Bytes::from_vec(text.into_bytes()))
}

/// The text of a chunk: an SJCL object in mode `ccm`, without spaces, its texts in padded base64.
/// It is read back as the chunk, and each of its bytes is a letter of ASCII that can be seen.
pub fn write_chunk(alloc: Global, chunk: &SjclChunk) -> Result<Bytes, AllocError>
    requires { is_chunk chunk.now ≡ true }
    ensures text { IfOk result (λ text. text ≡ chunk_text chunk.now) }
    ensures reads_back { IfOk result (λ text. (n : ℕ) → chunk_in text n ≡ Ok chunk.now) }
    ensures visible { IfOk result (λ text. are_visible text ≡ true) }
    ensures utf8 { IfOk result IsUtf8 }
{
    prove_sjcl(chunk);
    let text = chunk_text(alloc, chunk)?;
    Ok(text)
}

/// The lower-case hexadecimal digit of the lowest four bits.
fn digit(n: usize) -> u8
    ensures { result ≡ digit n }
{
    let low = (n % 16) as u8;
    if low < 10 { 48 + low } else { 87 + low }
}

fn six_digits(n: usize) -> [u8; 6]
    ensures { result ≡ six_digits n }
{
    [
        digit(n / 1_048_576),
        digit(n / 65_536),
        digit(n / 4_096),
        digit(n / 256),
        digit(n / 16),
        digit(n),
    ]
}

/// Adds a chunk behind its length.
fn append_piece(alloc: Global, text: &mut Bytes, chunk: &SjclChunk) -> Result<(), AllocError>
    ensures { OnOk result (text.new ≡ text.old ++ framed_chunk chunk.now) }
{
    let piece = chunk_text(alloc, chunk)?;
    text.append(&six_digits(piece.len()))?;
    text.append(piece.as_slice())?;
    Ok(())
}

#[tactic(auto, unfolding(crate::specs::Write::jed_text))]
fn jed_text(alloc: Global, jed: &Jed) -> Result<Bytes, AllocError>
    ensures { IfOk result (λ text. text ≡ jed_text jed.now) }
{
    let mut text = Bytes::new(alloc);
    text.append(b"JED0100002205")?;
    text.append(&jed.key.digits())?;
    for chunk in jed.chunks.as_slice() {
        append_piece(alloc, &mut text, chunk)?;
    }
    Ok(text)
}

/// The bytes of a sealed text of method 5. They are read back as the sealed text, and each is a letter of ASCII that
/// can be seen, so that they can stand in a line.
pub fn write_jed(alloc: Global, jed: &Jed) -> Result<Bytes, AllocError>
    requires { IsJed jed.now }
    ensures text { IfOk result (λ text. text ≡ jed_text jed.now) }
    ensures reads_back { IfOk result (λ text. jed_in text ≡ Ok jed.now) }
    ensures visible { IfOk result (λ text. are_visible text ≡ true) }
    ensures utf8 { IfOk result IsUtf8 }
{
    jed.key.prove_valid();
    prove_all(jed.chunks.as_slice());
    let text = jed_text(alloc, jed)?;
    Ok(text)
}
