//! What the words on the program's command line mean: a command, the target that it names, and where the tables
//! are kept that it uses.
//!
//! Each command has a row in `read_verb`; those on this machine's own tables have one in `local`, and those on master
//! keys in `keys`.
#![tactic(auto)]

mod command;
mod keys;
mod local;
mod profile;
mod target_name;
mod trial;
mod verb;
mod words;

pub use command::{Command, WordsErr, read_words};
pub use profile::{Profile, profile_words};
pub use target_name::{TargetKind, TargetName, target_words};
pub use trial::trial_words;
pub use verb::Verb;
pub use words::Words;
