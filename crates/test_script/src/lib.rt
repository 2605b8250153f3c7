//! A target in memory on which other clients' calls land between those of its caller, all on one
//! thread: for tests of what sessions do beside each other.
//!
//! Begin with [`ScriptedTarget`].
#![tactic(auto)]

mod scripted_target;

pub use scripted_target::ScriptedTarget;
