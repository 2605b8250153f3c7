//! Who watches a run: it is told of each call on the target and of its reply, and can do nothing about it.
//! A keeper and a target that are watched are in all that a contract says the ones that are watched.
//!
//! A [`Gauge`] draws on a terminal how far a session has come, and a [`CallLog`] writes a line for each
//! call. Begin with [`Watcher`].
#![tactic(auto)]

mod call_log;
mod gauge;
mod progress;
mod waiting;
mod watched_keeper;
mod watched_target;
mod watcher;

pub use call_log::CallLog;
pub use gauge::Gauge;
pub use progress::Progress;
pub use waiting::Waiting;
pub use watched_keeper::WatchedKeeper;
pub use watched_target::WatchedTarget;
pub use watcher::{Nobody, Pair, Watcher};
