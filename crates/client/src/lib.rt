//! A client's own side: its target whose calls are written down, its tables whose changes are kept and written down,
//! its name, and the outside that it works with.
//!
//! Begin with [`Client`], over which all parts of a session are written, and with [`Site`], the one that there is. All
//! changes of a session go through [`Client::commit`]. What a run may use beside it is the [`Outside`], of which
//! [`Around`] is the one that there is; [`known_client`] says whose client this is.
#![tactic(auto)]

mod applying;
mod around;
mod client;
mod committing;
mod drawing;
mod known;
mod outside;
mod own_err;
mod site;

pub use around::Around;
pub use client::Client;
pub use drawing::draw_id;
pub use known::{Known, known_client};
pub use outside::Outside;
pub use own_err::OwnErr;
pub use site::Site;
