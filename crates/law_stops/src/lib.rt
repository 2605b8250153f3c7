//! What is left of a run where the program was stopped, or where its memory ran out: it obeys all
//! that the whole run obeys but the release of its lock, wherever that was, amid a call too. So
//! what is promised of runs is promised of stopped ones.
//!
//! `specs/Cuts.antt` says what is left, and `specs/Headlines.antt` what is promised of it of each
//! run of the program. Begin with the law [`stopped_runs_obey`].
#![tactic(auto)]

mod headline;
mod laws;

pub use headline::stopped_runs_have_the_headline;
pub use laws::{stopped_runs_keep_the_promises, stopped_runs_obey};
