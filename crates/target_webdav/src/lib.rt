//! A target that a WebDAV server holds, of any make.
//!
//! Begin with [`WebDavTarget`] and `specs/Serving.antt`, which says what a call on a server comes to;
//! `specs/Marks.antt` says by what a false clock and another folder are known.
#![tactic(auto)]

mod budget;
mod folder;
mod mark;
mod trouble;
mod webdav_target;

pub use mark::{Mark, OwnLock};
pub use webdav_target::WebDavTarget;
