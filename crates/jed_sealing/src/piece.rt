ghost use Rattle.std.specs.Prelude.{◌≡◌, ◌<◌, ◌++◌, [], true, length, IfOk};
ghost use Rattle.aes_ccm.specs.Ccm.{ciphered, tag_of};
ghost use Rattle.jed_format.specs.Opening.{length_size, nonce_of};
ghost use Rattle.jed_format.specs.Write.{is_brief};
ghost use Rattle.jed_sealing.specs.Sealing.{bits_of, key_under, sealed_piece, turns_of};

use crate::grain::Grain;
use crate::strength::Strength;
use aes_ccm::{Aes, ccm_seal, pbkdf2};
use jed_format::SjclChunk;
use jop_base::Bytes;
use std::alloc::{AllocError, Global};

/// The key of a piece.
fn key_of(password: &[u8], salt: &[u8; 8], strength: Strength) -> Aes
    ensures { result ≡ key_under password.now salt.now strength }
{
    let key = pbkdf2(password, salt, strength.turns());
    match Aes::new(&key[..usize::from(strength.bits() / 8)]) {
        Some(key) => key,
        None => unreachable!(),
    }
}

/// Seals a piece of less than 65,536 bytes under a password, by these numbers.
#[tactic(auto, using(crate::proofs::OnePiece::short_nonce))]
pub fn seal_piece(
    alloc: Global,
    password: &[u8],
    strength: Strength,
    piece: &[u8],
    grain: &Grain,
) -> Result<SjclChunk, AllocError>
    requires short { length piece.now < 65536 }
    ensures sealed { IfOk result (λ c. c ≡ sealed_piece password.now strength piece.now grain.now) }
    ensures brief { IfOk result (λ c. is_brief c ≡ true) }
{
    let key = key_of(password, &grain.salt, strength);
    let ct = enciphered(alloc, &key, &grain.iv[..13], piece)?;
    let sealed = chunk(alloc, grain, strength, ct)?;
    Ok(sealed)
}

/// The piece, enciphered, and its tag of 64 bits.
fn enciphered(alloc: Global, key: &Aes, nonce: &[u8], piece: &[u8]) -> Result<Vec<u8>, AllocError>
    requires nonce { length nonce.now ≡ 13 }
    requires short { length piece.now < 65536 }
    ensures { IfOk result (λ ct. ct.items
        ≡ ciphered key.now nonce.now piece.now ++ tag_of key.now nonce.now [] piece.now 8) }
{
    let mut ct = Vec::from_slice(alloc, piece)?;
    match ccm_seal(key, nonce, &[], &mut ct, 8) {
        Ok(tag) => {
            ct.extend_from_slice(&tag[..8])?;
            Ok(ct)
        }
        Err(_) => unreachable!(),
    }
}

/// The chunk of these numbers.
fn chunk(
    alloc: Global,
    grain: &Grain,
    strength: Strength,
    ct: Vec<u8>,
) -> Result<SjclChunk, AllocError>
    ensures { IfOk result (λ c. c ≡ record {
      iv = grain.now.iv;
      iter = turns_of strength;
      ks = bits_of strength;
      ts = 64;
      salt = grain.now.salt;
      ct = ct.items;
    }) }
{
    let iv = Vec::from_slice(alloc, &grain.iv)?;
    let salt = Vec::from_slice(alloc, &grain.salt)?;
    Ok(SjclChunk {
        iv: Bytes::from_vec(iv),
        iter: strength.turns(),
        ks: strength.bits(),
        ts: 64,
        salt: Bytes::from_vec(salt),
        ct: Bytes::from_vec(ct),
    })
}
