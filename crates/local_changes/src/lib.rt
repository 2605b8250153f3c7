//! The changes that a user makes: a new note, notebook, tag or resource, an edit, another title or place, a
//! removal. Each is made for tables, and is refused exactly as its definition says.
//!
//! Begin with [`new_note`] and [`edited`]. It stands on the tables and changes of `local_store`.
#![tactic(auto)]

mod amend;
mod book;
mod edit;
mod free;
mod lookup;
mod note;
mod removal;
mod resource;
mod saving;
mod store_err;
mod tag;

pub use amend::{Amendment, amended, plain_entry};
pub use book::new_book;
pub use edit::{edited, plain_note};
pub use free::free_id;
pub use lookup::has_row;
pub use note::new_note;
pub use removal::removed;
pub use resource::new_resource;
pub use saving::ITEM_LIMIT;
pub use store_err::StoreErr;
pub use tag::{has_link, tagged, unlinked};
