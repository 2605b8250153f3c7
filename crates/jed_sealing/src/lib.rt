//! Sealing under a password, as SJCL does and as JED01 holds it: pieces, whole texts and blobs, each piece by numbers
//! that are drawn at random for it. What is sealed is opened by `jed_format`.
//!
//! Begin with [`seal_text`] and [`seal_piece`], and with `specs/Sealing.antt`. Nothing is claimed of secrecy, nor
//! that a source gives no bytes twice.
#![tactic(auto)]

mod blobs;
mod grain;
mod piece;
mod pieces;
mod seal_err;
mod strength;
mod texts;

pub use blobs::seal_bytes;
pub use grain::{Grain, draw_grain};
pub use piece::seal_piece;
pub use seal_err::SealErr;
pub use strength::Strength;
pub use texts::seal_text;
