//! What a session sends: items that were saved here are uploaded, and then the files of those that were removed here
//! are deleted.
//!
//! Begin with [`upload_waiting`], which `specs/Uploading.antt` tells as sentences, and `specs/Settled.antt` what it
//! leaves; and with [`delete_listed`], by `specs/Deleting.antt`.
#![tactic(auto)]

mod deleting;
mod loading;
mod moving;
mod putting;
mod uploading;
mod yielding;

pub use deleting::{delete_all, delete_listed};
pub use uploading::{upload_all, upload_waiting};
