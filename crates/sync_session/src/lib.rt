//! A whole sync: a client's own info and the target's become one, what was saved and removed here
//! goes to the target, and what others have done is read, all under one lease.
//!
//! Begin with [`sync_on`] and [`SyncErr`]. `specs/Working.antt` says what is done under the lease,
//! as a sentence over the words of `session`; `specs/Syncing.antt` says what a whole session
//! is, and why it answers as it does.
#![tactic(auto)]

mod exchanging;
mod keys;
mod leaving;
mod sync_err;
mod syncing;
mod working;

pub use sync_err::SyncErr;
pub use syncing::sync_on;
