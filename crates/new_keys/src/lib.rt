//! New master keys: the record of one that is made of random bytes and sealed under its owner's password, and an info
//! in which a key is active.
//!
//! Begin with [`make_key`], and with `specs/Made.antt`; then [`with_new_key`] and [`with_active_key`]. Nothing is
//! claimed of secrecy, nor that a source gives no bytes twice.
#![tactic(auto)]

mod content;
mod id;
mod infos;
mod making;
mod members;

pub use infos::{has_key, with_active_key, with_new_key};
pub use making::make_key;
