//! Master keys as the records of an info: what is told of them, and what the sealed bytes of a resource open to under a
//! password for their key.
//!
//! Begin with [`list_keys`] and [`open_sealed_bytes`]. What a record opens to, and when it is readable, are those of
//! `master_keys`.
#![tactic(auto)]

mod digits;
mod listing;
mod reading;
mod sealed_bytes;

pub use listing::list_keys;
pub use sealed_bytes::open_sealed_bytes;
