ghost use Rattle.std.specs.Prelude.{◌≡◌, true, option_map, Ok, Err, IfOk, IfErr};
ghost use Rattle.std.specs.List.{AllPass};
ghost use Rattle.jed_format.specs.Chunk.{is_chunk};
ghost use Rattle.jed_format.specs.Opening.{units_under, piece_units, piece_bytes, part, opened_piece, joined_pieces, opened_text, blob_in};
ghost use Rattle.jed_format.specs.Refusals.{Refuses};

use crate::base64_text::decoded;
use crate::jed::Jed;
use crate::jed_err::JedErr;
use crate::one_piece::open_chunk;
use crate::sjcl_chunk::SjclChunk;
use jed_text::{unescape_units, units_of, units_text};
use jop_base::{Bytes, Text};
use std::alloc::{AllocError, Global};

/// The units of a text under a method.
fn units_under(alloc: Global, method: u8, text: &str) -> Result<Vec<u16>, AllocError>
    ensures { IfOk result (λ units. units.items ≡ units_under method text.now) }
{
    let units = units_of(alloc, text)?;
    if method == 5 || method == 7 {
        let plain = unescape_units(alloc, &units)?;
        return Ok(plain);
    }
    Ok(units)
}

/// The units that a piece writes. None if it isn't UTF-8.
fn units_in(alloc: Global, method: u8, piece: &[u8]) -> Result<Option<Vec<u16>>, AllocError>
    ensures { IfOk result
        (λ found. option_map (λ units. units.items) found ≡ piece_units method piece.now) }
{
    match std::str::from_utf8(piece) {
        Ok(text) => {
            let units = units_under(alloc, method, text)?;
            Ok(Some(units))
        }
        Err(_) => Ok(None),
    }
}

/// The bytes whose base64 a piece writes. None if it writes none.
fn bytes_in(alloc: Global, method: u8, piece: &[u8]) -> Result<Option<Bytes>, AllocError>
    ensures { IfOk result (λ found. found ≡ piece_bytes method piece.now) }
{
    match units_in(alloc, method, piece)? {
        Some(units) => {
            let text = units_text(alloc, &units)?;
            let found = decoded(alloc, text.as_slice())?;
            Ok(found)
        }
        None => Ok(None),
    }
}

/// The units of chunk `n`.
fn units_at(
    alloc: Global,
    method: u8,
    chunk: &SjclChunk,
    password: &[u8],
    n: u64,
) -> Result<Vec<u16>, JedErr>
    requires { is_chunk chunk.now ≡ true }
    ensures ok { IfOk result (λ units.
        part (piece_units method) n (opened_piece password.now chunk.now) ≡ Ok units.items) }
    ensures err { IfErr result
        (Refuses (part (piece_units method) n (opened_piece password.now chunk.now))) }
{
    let Some(piece) = open_chunk(alloc, chunk, password)? else {
        return Err(JedErr::BadTag { n });
    };
    match units_in(alloc, method, piece.as_slice())? {
        Some(units) => Ok(units),
        None => Err(JedErr::BadChunk { n }),
    }
}

/// The bytes of chunk `n`.
fn bytes_at(
    alloc: Global,
    method: u8,
    chunk: &SjclChunk,
    password: &[u8],
    n: u64,
) -> Result<Bytes, JedErr>
    requires { is_chunk chunk.now ≡ true }
    ensures ok { IfOk result (λ bytes.
        part (piece_bytes method) n (opened_piece password.now chunk.now) ≡ Ok bytes) }
    ensures err { IfErr result
        (Refuses (part (piece_bytes method) n (opened_piece password.now chunk.now))) }
{
    let Some(piece) = open_chunk(alloc, chunk, password)? else {
        return Err(JedErr::BadTag { n });
    };
    match bytes_in(alloc, method, piece.as_slice())? {
        Some(bytes) => Ok(bytes),
        None => Err(JedErr::BadChunk { n }),
    }
}

fn all_units(
    alloc: Global,
    method: u8,
    chunks: &[SjclChunk],
    password: &[u8],
) -> Result<Vec<u16>, JedErr>
    requires { AllPass is_chunk chunks.now }
    ensures ok { IfOk result (λ units.
        joined_pieces (piece_units method) password.now 1 chunks.now ≡ Ok units.items) }
    ensures err { IfErr result
        (Refuses (joined_pieces (piece_units method) password.now 1 chunks.now)) }
{
    let mut all = Vec::new(alloc);
    for (n, chunk) in chunks.iter().enumerate() {
        let units = units_at(alloc, method, chunk, password, n as u64 + 1)?;
        all.extend_from_slice(&units)?;
    }
    Ok(all)
}

fn all_bytes(
    alloc: Global,
    method: u8,
    chunks: &[SjclChunk],
    password: &[u8],
) -> Result<Bytes, JedErr>
    requires { AllPass is_chunk chunks.now }
    ensures ok { IfOk result (λ bytes.
        joined_pieces (piece_bytes method) password.now 1 chunks.now ≡ Ok bytes) }
    ensures err { IfErr result
        (Refuses (joined_pieces (piece_bytes method) password.now 1 chunks.now)) }
{
    let mut all = Bytes::new(alloc);
    for (n, chunk) in chunks.iter().enumerate() {
        let bytes = bytes_at(alloc, method, chunk, password, n as u64 + 1)?;
        all.append(bytes.as_slice())?;
    }
    Ok(all)
}

/// The text that was sealed under a password. Chunks are opened in their order: `BadTag` with the
/// number of the first whose tag isn't right, `BadChunk` with that of the first that isn't UTF-8. A
/// surrogate without its partner gives U+FFFD.
#[tactic(auto, unfolding(crate::specs::Opening::opened_text))]
pub fn open_text(alloc: Global, jed: &Jed, password: &[u8]) -> Result<Text, JedErr>
    requires { AllPass is_chunk jed.now.chunks }
    ensures ok { IfOk result (λ text. opened_text password.now jed.now ≡ Ok text) }
    ensures err { IfErr result (Refuses (opened_text password.now jed.now)) }
{
    let units = all_units(alloc, jed.method, jed.chunks.as_slice(), password)?;
    let text = units_text(alloc, &units)?;
    Ok(text)
}

/// The bytes that were sealed under a password, each chunk as base64 by itself. Chunks are opened
/// in their order: `BadTag` with the number of the first whose tag isn't right, `BadChunk` with
/// that of the first that is no base64.
#[tactic(auto, unfolding(crate::specs::Opening::blob_in))]
pub fn open_blob(alloc: Global, jed: &Jed, password: &[u8]) -> Result<Bytes, JedErr>
    requires { AllPass is_chunk jed.now.chunks }
    ensures ok { IfOk result (λ bytes. blob_in password.now jed.now ≡ Ok bytes) }
    ensures err { IfErr result (Refuses (blob_in password.now jed.now)) }
{
    let bytes = all_bytes(alloc, jed.method, jed.chunks.as_slice(), password)?;
    Ok(bytes)
}
