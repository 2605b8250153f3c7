//! One sealed piece under a password.

ghost use Rattle.std.specs.Prelude.{◌≡◌, ◌≤◌, true, length, IfOk};
ghost use Rattle.aes_ccm.specs.Hmac.{pbkdf2_of};
ghost use Rattle.jed_format.specs.Chunk.{is_chunk};
ghost use Rattle.jed_format.specs.Opening.{key_of_password, length_size, nonce_of, sealed_len, sealed_in, tag_in, opened_piece};

use crate::sjcl_chunk::SjclChunk;
use aes_ccm::{Aes, CcmErr, ccm_open, pbkdf2};
use jop_base::Bytes;
use std::alloc::{AllocError, Global};

/// How many bytes the length of so many bytes takes, at least 2.
fn length_size(len: usize) -> usize
    ensures size { result ≡ length_size len }
    ensures low { 2 ≤ result }
    ensures high { result ≤ 4 }
{
    if len < 65_536 {
        2
    } else if len < 16_777_216 {
        3
    } else {
        4
    }
}

/// The first bytes of an iv, so many that the length of `len` bytes fits beside them.
fn nonce_of(iv: &[u8], len: usize) -> &[u8]
    requires { 7 ≤ length iv.now }
    ensures { result.now ≡ nonce_of iv.now len }
{
    let size = length_size(len).max(15 - iv.len().min(15));
    &iv[..15 - size]
}

/// The key of a piece.
fn key_of(chunk: &SjclChunk, password: &[u8]) -> Aes
    requires { is_chunk chunk.now ≡ true }
    ensures { result ≡ key_of_password password.now chunk.now }
{
    let key = pbkdf2(password, chunk.salt.as_slice(), chunk.iter);
    match Aes::new(&key[..usize::from(chunk.ks / 8)]) {
        Some(key) => key,
        None => unreachable!(),
    }
}

/// The piece that is sealed. None if its tag isn't right under the password.
#[tactic(auto, unfolding(crate::specs::Opening::opened_piece))]
pub fn open_chunk(
    alloc: Global,
    chunk: &SjclChunk,
    password: &[u8],
) -> Result<Option<Bytes>, AllocError>
    requires { is_chunk chunk.now ≡ true }
    ensures { IfOk result (λ found. found ≡ opened_piece password.now chunk.now) }
{
    let key = key_of(chunk, password);
    let ct = chunk.ct.as_slice();
    let end = ct.len() - usize::from(chunk.ts / 8);
    let nonce = nonce_of(chunk.iv.as_slice(), end);
    let mut text = Vec::from_slice(alloc, &ct[..end])?;
    match ccm_open(&key, nonce, &[], &mut text, &ct[end..]) {
        Ok(()) => Ok(Some(Bytes::from_vec(text))),
        Err(CcmErr::BadTag) => Ok(None),
        Err(CcmErr::BadParams) => unreachable!(),
    }
}
