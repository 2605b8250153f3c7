//! One request of HTTP/1.1 and its answer over a link.
//!
//! What a response is, `http1` says; what an answer is beside it, and why none came, stand in `specs/Answers.antt` and
//! `specs/Causes.antt`. Begin with [`exchange`] and `specs/Whole.antt`.
#![tactic(auto)]

mod asking;
mod body;
mod head;
mod receiving;
mod request;
mod told;

pub use asking::exchange;
pub use receiving::{Received, receive};
pub use request::write_text;
pub use told::Told;
