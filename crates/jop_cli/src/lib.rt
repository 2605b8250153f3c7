//! The program `jop` but for its edge: what it does and what it prints. [`run`] is its top call;
//! `main` only makes the real things that it is handed.
//!
//! It stands on `jop_words`, which says what words mean, and `jop_status`, which says how a run
//! ends. Each command has a file in `command` and an arm in `obey`.
#![tactic(auto)]

mod command;
mod laws;
mod program;
mod report;
mod world;

pub use laws::headline;
pub use program::run;
