//! The commands: a room for each.

pub(crate) mod blob;
pub(crate) mod new;
pub(crate) mod use_key;
