//! The last part of a session: the root of the target is listed, what another client has written
//! since is read, and what another client has deleted goes.
//!
//! Begin with [`apply_listed`]. `specs/Downloading.antt` says it as a sentence, over the words of `session`;
//! `specs/Taking.antt` says what is done with a new file, and `specs/Asked.antt` which files a listing asks for.
#![tactic(auto)]

mod leaving;
mod paging;
mod taking;

pub use paging::{apply_listed, apply_page};
