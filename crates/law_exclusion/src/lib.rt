//! What the locks, the versions that are read and the steps of upgrades come to together, over
//! every history of all clients: upgrades are held apart, and each write lands on the version of
//! the target that its session has read; and what the steps of an upgrade make of a target, stopped
//! and run again wherever it may be.
//!
//! `specs/Learnt.antt` says what a session has read of the version; `specs/Exclusive.antt` says
//! which histories are exclusive. Begin with the law [`exclusive`]; `needed` has what breaks where one
//! of its premises fails. `specs/Target.antt` says what an upgraded target is, and `specs/Runs.antt`
//! which histories of upgrades are spoken of: that law is [`redone`].
#![tactic(auto)]

mod laws;
mod needed;
mod redoing;

pub use laws::{can_begin_again, can_upgrade_between_syncs, exclusive};
pub use needed::{
    needs_all_to_keep_their_locks, needs_an_honest_store, needs_the_version_to_be_kept,
    needs_the_version_to_be_read, needs_timely_writes,
};
pub use redoing::redone;
