//! The start of a run: the file of tables and the target that its words name are opened, the run is on
//! these, and they are closed.
//!
//! What stands in a file or on a server, no contract can say. What is proved is that a run is one of
//! [`jop_cli::run`] on what an opener opened for its very words, whatever opener that is, that nothing
//! else is done with it, and that a start that is refused does nothing. Begin with [`run_named`] and
//! [`Opener`]. What the environment names stands in [`full_words`].
#![tactic(auto)]

mod defaults;
mod opener;
mod server;
mod start_err;
mod starting;
mod streams;
mod system_opener;
mod work;

pub use defaults::full_words;
pub use opener::Opener;
pub use server::{known_site, server_target, site_target};
pub use start_err::StartErr;
pub use starting::run_named;
pub use streams::Streams;
pub use system_opener::SystemOpener;
pub use work::Work;
