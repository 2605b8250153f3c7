//! Which items of a target a client has to read again: those written since it listed them last, and those that are
//! gone.
//!
//! Begin with [`delta_of`]. The laws [`misses_nothing`] and [`fetches_once`] say what it comes to over two
//! listings, and [`absence_alone_deletes_nothing`] what becomes of files that are absent where deletions are
//! recorded.
#![tactic(auto)]

mod emptied;
mod laws;
mod mark;
mod order;
mod page;
mod tomb;

pub use emptied::fail_safe;
pub use laws::{absence_alone_deletes_nothing, fetches_once, is_the_only_one, misses_nothing};
pub use mark::Mark;
pub use page::{Page, delta_of};
