//! Joplin's sealed texts: JED01, and the SJCL objects that it holds.
//!
//! Begin with [`read_jed`] and [`open_text`], and with `specs/Jed.antt`. [`escape`] and
//! [`unescape`] are those of `jed_text`.
#![tactic(auto)]

mod base64_text;
mod chunk_reader;
mod header;
mod jed;
mod jed_err;
mod jed_reader;
mod laws;
mod members;
mod one_piece;
mod opening;
mod sjcl_chunk;
mod writer;

pub use chunk_reader::read_chunk;
pub use jed::Jed;
pub use jed_err::JedErr;
pub use jed_reader::read_jed;
pub use jed_text::{escape, unescape, units_text};
pub use laws::{opens_a_sealed_blob, opens_a_sealed_text, reads_the_grammar};
pub use one_piece::open_chunk;
pub use opening::{open_blob, open_text};
pub use sjcl_chunk::SjclChunk;
pub use writer::{write_chunk, write_jed};
