//! A client in memory for worked cases of sessions: what it has done before, a session or a part of
//! one over any target, and what it has then. It is for tests: they try what it gives, and no
//! contract promises it.
//!
//! Begin with [`Client`], and with [`Case`] for tables of cases.
#![tactic(auto)]

mod broken_off;
mod case;
mod files;
mod parts;
mod place;
mod shown;
mod step;
mod worked;

pub use broken_off::BrokenOff;
pub use case::{Case, first_other};
pub use files::{Text, holds, place_bytes, size_of, target_at, target_of};
pub use parts::Part;
pub use place::{OWN, Place};
pub use shown::{RowText, Standing, counts};
pub use step::{Step, id_of};
pub use worked::Client;
