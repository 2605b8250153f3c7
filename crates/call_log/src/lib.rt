//! What a shared store has answered, call by call, beside what its clients have written down.
//!
//! It stands on `jop_target`. Begin with [`close_log`]. `specs/Logs.antt` says which logs are honest,
//! `specs/Agreeing.antt` when a log and a trail agree, and `specs/Differing.antt` where they first
//! differ.
#![tactic(auto)]

mod closing;
mod comparing;
mod entry;
mod gap;
mod mismatch;
mod same;
mod standing;
mod trailed;
mod ways;

pub use closing::close_log;
pub use entry::LogEntry;
pub use mismatch::{CloseErr, Mismatch};
pub use trailed::Trailed;
