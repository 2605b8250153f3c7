//! What becomes of a client's rows where they meet another client's work, what a session has done
//! in numbers, and why one of its steps gives nothing: something has failed, or the session is refused.
//!
//! Begin with [`must_copy`] and [`conflict_change`]; `specs/Rules.antt` says what they answer, over the words of the
//! licences. It stands on `local_store`.
#![tactic(auto)]

mod error;
mod folder;
mod refusal;
mod remote;
mod report;
mod rules;
mod tally;

pub use error::StepErr;
pub use folder::folder_gone_changes;
pub use refusal::Refusal;
pub use remote::content_in;
pub use report::SyncReport;
pub use rules::{conflict_change, must_copy};
pub use tally::Tally;
