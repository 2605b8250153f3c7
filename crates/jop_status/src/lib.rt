//! How a run of the program ends: its statuses, the exit number and the line on standard error of
//! each, and how a text is printed, piece by piece, so that it takes no memory.
//!
//! It stands on what can end a run: sessions, commands on the tables, and a client's own side. Their
//! refusals become statuses here; those of one command alone do where that command stands. Begin with
//! [`Status`], whose rows are in `specs/Statuses.antt`, and then [`report`] and [`emit`].
#![tactic(auto)]

mod output;
mod piece;
mod status;
mod status_line;

pub use output::{emit, emit_three};
pub use piece::{Piece, write_pieces};
pub use status::{Status, USAGE_LINE, report};
