//! Whose a file of tables is. It is looked at before the database opens it: in a file of another program nothing is
//! changed, and no log is made beside it.
//!
//! This is the edge: what stands in a file, no contract can say. What is proved here is what a mark and a count of
//! tables come to. Begin with [`holds_tables`].
#![tactic(auto)]

mod copy;
mod first_page;
mod held_file;
mod layout;
mod mark;
mod owner;
mod tables;
mod trouble;

pub use held_file::make_file;
pub use layout::{Layout, layout_of};
pub use owner::holds_tables;
pub use tables::TABLES;
pub use trouble::Trouble;
