//! Where a client's tables, and the bytes of its resources, are kept between two runs.
//!
//! It stands on `local_store`, which has the tables and the changes. Begin with [`Keeper`].
#![tactic(auto)]

mod blob;
mod keeper;
mod keeper_err;

pub use blob::Blob;
pub use keeper::Keeper;
pub use keeper_err::KeeperErr;
