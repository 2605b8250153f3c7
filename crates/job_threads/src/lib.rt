//! What has each job done in a thread of its own.
//!
//! It stands on `jop_outside`, which says what a job and a spawner are. Begin with [`Threaded`], and with
//! [`begin`], by which the program's `main` has it start a thread.
#![tactic(auto)]

mod beginning;
mod job_thread;
mod outcome;
mod threaded;

pub use beginning::begin;
pub use job_thread::JobThread;
pub use threaded::{Running, Threaded};
