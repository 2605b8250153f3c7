//! A server of WebDAV over one connection: it reads requests of a link, makes their calls on a
//! line, and writes the replies as responses.
//!
//! Begin with [`serve_connection`] and `specs/Serving.antt`. [`LoopLink`] is a link whose other end
//! is such a server over a target in memory.
#![tactic(auto)]

mod answering;
mod connection;
mod error;
mod loop_link;
mod next_request;
mod turn;

pub use connection::serve_connection;
pub use error::ServeErr;
pub use loop_link::LoopLink;
