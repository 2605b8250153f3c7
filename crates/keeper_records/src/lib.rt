//! A keeper of tables over a store of records: each change becomes a few writes, which the store makes together or
//! not at all. All of it is proved over every store.
//!
//! Begin with [`Write`], [`RecordStore`] and [`RecordKeeper`], and for the writes that make a change with
//! `specs/Making.antt`. It stands on the tables and changes of `local_store`.
#![tactic(auto)]

mod laws;
mod making;
mod mem_keeper;
mod mem_records;
mod record_keeper;
mod record_store;
mod write;
mod writing;

pub use laws::{sound_writes_keep_sound, writes_make_their_change};
pub use mem_keeper::MemKeeper;
pub use mem_records::MemRecords;
pub use record_keeper::RecordKeeper;
pub use record_store::RecordStore;
pub use write::Write;
pub use writing::have_room;
