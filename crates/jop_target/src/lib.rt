//! The calls on a target, a store of files that does nothing by itself; what a target promises; the
//! diary of a client's calls; and a store and a target in memory.
//!
//! Begin with [`Target`] and, for what a store answers, with `specs/Store.antt`. Whoever calls a
//! target does so over a [`Line`], the one place where a call and its reply are written down.
#![tactic(auto)]

mod answers;
mod call;
mod diary;
mod event;
mod limits;
mod line;
mod mem_store;
mod mem_target;
mod reply;
mod target;
mod target_line;
mod tree;

pub use call::Call;
pub use diary::Diary;
pub use event::Event;
pub use limits::{BLOB_LIMIT, FILE_LIMIT, limit_of};
pub use line::Line;
pub use mem_store::MemStore;
pub use mem_target::MemTarget;
pub use reply::{Entry, Listing, Reply};
pub use target::Target;
pub use target_line::TargetLine;
pub use tree::{BlobBytes, Content, File, Tree};
