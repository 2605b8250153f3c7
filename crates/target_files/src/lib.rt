//! A target over a folder of the system, which other programs see too.
//!
//! This is the edge: what the system does with a file, no contract can say. What is proved here is that the replies
//! fit their calls, that nothing longer than its limit is read, and that each fault is counted. It stands on
//! `jop_target`. Begin with [`FolderTarget`].
#![tactic(auto)]

mod file_clock;
mod files;
mod folder;
mod folder_target;
mod folders;
mod listing;
mod lock_file;
mod moment;
mod named;
mod temporary;
mod trouble;
mod turn;

pub use folder_target::FolderTarget;
pub use turn::{TakesTurns, Turn};
