//! The response to a call, read piece by piece as it comes over a link.
//!
//! Begin with [`ReplyReader`] and `specs/Pieces.antt`. Of a head it keeps the bytes until the head is
//! whole, of the body that lists a folder the files and less than a line, and of a file's body what
//! becomes the reply.
#![tactic(auto)]

mod fed;
mod laws;
mod layout_reader;
mod line;
mod reply_reader;
mod state;

pub use fed::Fed;
pub use laws::{
    a_fed_response_is_the_read_one, fed_pieces_are_read_as_their_bytes, little_is_held,
};
pub use reply_reader::ReplyReader;
