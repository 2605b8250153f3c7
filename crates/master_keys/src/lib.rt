//! Master keys: which keys an info and a password give, and what is sealed and opened with them.
//!
//! Begin with [`unlock`], [`open_item`] and [`seal_item`], and with `specs/Rings.antt` and
//! `specs/Opening.antt`. Nothing is claimed of secrecy.
#![tactic(auto)]

mod blobs;
mod frame;
mod key_err;
mod locked_key;
mod opening;
mod ring;
mod sealing;
mod tried_key;
mod unlocking;

pub use blobs::seal_blob;
pub use key_err::KeyErr;
pub use opening::open_item;
pub use ring::Ring;
pub use sealing::seal_item;
pub use unlocking::unlock;
