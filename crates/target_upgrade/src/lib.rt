//! Brings a target to the supported version: folders, versions, and the keys that older versions
//! kept in item files.
//!
//! `specs/Steps.antt` says which call comes next, by what was read and answered so far, and
//! `specs/Course.antt` what any session may do under its lease. Begin with [`read_version`] and
//! [`upgrade`]. What they make of a target is a law of its own, in the crate `law_exclusion`.
#![tactic(auto)]

mod asking;
mod getting;
mod items;
mod key;
mod reading;
mod step;
mod steps;
mod upgrading;
mod version;

pub use reading::{Found, ReadErr, read_version};
pub use step::Step;
pub use upgrading::upgrade;
pub use version::SUPPORTED;
