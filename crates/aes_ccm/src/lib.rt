//! AES (FIPS 197), CCM (SP 800-38C), HMAC (RFC 2104) and PBKDF2 (RFC 8018) over SHA-256, against the standards on lists
//! of bytes. Nothing is claimed of secrecy or of the time that a call takes.
//!
//! Begin with [`Aes`], and with [`ccm_seal`], [`ccm_open`], [`hmac`] and [`pbkdf2`].
#![tactic(auto)]

mod aes;
mod block;
mod ccm;
mod ccm_err;
mod chain;
mod keyed_hash;
mod laws;
mod opening;
mod password_key;
mod rounds;
mod schedule;
mod sealing;
mod state;
mod substitution;
mod tables;
mod xor;

pub use aes::Aes;
pub use ccm::{ccm_open, ccm_seal};
pub use ccm_err::CcmErr;
pub use keyed_hash::hmac;
pub use laws::{inverts_every_byte, opens_what_is_sealed};
pub use password_key::pbkdf2;
