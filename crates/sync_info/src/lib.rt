//! The settings, keys and version of a target: what stands in its `info.json`, read, written and merged.
//!
//! Begin with [`Info`], and with [`read_info`], [`write_info`] and [`merge`]. What a text holds is what `serde_json`
//! reads of it.
#![tactic(auto)]

mod bad_info;
mod holder;
mod index;
mod info;
mod kept;
mod key_record;
mod keys;
mod laws;
mod member;
mod merging;
mod parts;
mod read;
mod timed;
mod whole;
mod write;

pub use bad_info::{BadInfo, InfoErr};
pub use info::Info;
pub use key_record::KeyRecord;
pub use laws::{merges_once, merges_valid, new_text, reads_what_is_written, what_is_read_is_valid};
pub use member::Member;
pub use merging::merge;
pub use read::read_info;
pub use timed::Timed;
pub use write::write_info;
