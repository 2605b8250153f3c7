//! A target over a link to a server of WebDAV.
//!
//! Begin with [`DavTarget`] and `specs/Exchanges.antt`, which says what a call over a link comes to.
#![tactic(auto)]

mod budget;
mod dav_target;
mod receiving;
mod sending;

pub use dav_link::{Link, MemLink};
pub use dav_target::DavTarget;
