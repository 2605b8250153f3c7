//! The address of a WebDAV server, and a folder on one, as a URL names it.
//!
//! Begin with [`read_address`] and `specs/Addresses.antt`, and with [`read_site`] and `specs/Places.antt`.
#![tactic(auto)]

mod address;
mod site;

pub use address::read_address;
pub use site::{SiteName, read_site};
