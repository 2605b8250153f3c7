//! The steps of a session's parts: a call under the lease, and a change; how a file that was got stands to its row; and
//! how parts are put together.
//!
//! Begin with [`Session`], over which the parts are written, and with [`Hand`], the one that there is.
//! `specs/Doing.antt` says what a part leaves by each of its answers, `specs/Parts.antt` how a session is told as a
//! sentence, and `proofs/Behind.antt` what follows from the sentence of a part.
#![tactic(auto)]

mod asking;
mod fetching;
mod finding;
mod hand;
mod judging;
mod session;
mod waiting;

pub use fetching::fetch_bytes_of;
pub use finding::Finding;
pub use hand::Hand;
pub use session::Session;
pub use waiting::waiting_row;
