//! A connection over which messages travel both ways, as an object of the outside: what it promises, one in memory, and
//! how a message is written to it whole and waited for.
//!
//! Begin with [`Link`] and [`Message`].
#![tactic(auto)]

mod awaiting;
mod error;
mod link;
mod mem_link;
mod message;
mod receiving;
mod sending;

pub use awaiting::await_message;
pub use error::LinkErr;
pub use link::Link;
pub use mem_link::MemLink;
pub use message::Message;
pub use receiving::read_on;
pub use sending::write_message;
