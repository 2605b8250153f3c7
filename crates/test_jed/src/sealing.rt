//! Texts that are sealed for the tests beside it.

use aes_ccm::{Aes, ccm_seal, pbkdf2};
use jed_format::{Jed, SjclChunk};
use jop_base::{Bytes, Id, Seq};
use std::alloc::Global;
use std::test::Fail;

/// A piece sealed under `password`, by 101 turns, a key of 128 bits and a tag of 64.
pub(crate) fn sealed_piece(alloc: Global, piece: &[u8], number: u8) -> Result<SjclChunk, Fail> {
    let iv = [number; 16];
    let salt = [number; 8];
    let key = Aes::new(&pbkdf2(b"password", &salt, 101)[..16]).ok_or("no key")?;
    let mut ct = piece.to_vec(alloc)?;
    let tag = ccm_seal(&key, &iv[..13], &[], &mut ct, 8)?;
    ct.extend_from_slice(&tag[..8])?;
    Ok(SjclChunk {
        iv: Bytes::from_vec(iv.to_vec(alloc)?),
        iter: 101,
        ks: 128,
        ts: 64,
        salt: Bytes::from_vec(salt.to_vec(alloc)?),
        ct: Bytes::from_vec(ct),
    })
}

/// A sealed text of these pieces.
pub(crate) fn sealed(alloc: Global, method: u8, pieces: &[&[u8]]) -> Result<Jed, Fail> {
    let mut chunks = Seq::new(alloc);
    let mut number = 0u8;
    for piece in pieces {
        number = number.wrapping_add(1);
        chunks.push(sealed_piece(alloc, piece, number)?)?;
    }
    let key = Id::read(b"11111111111111111111111111111111").ok_or("no id")?;
    Ok(Jed {
        method,
        key,
        chunks,
    })
}
