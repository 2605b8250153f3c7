//! The opening of a sync session: the version of its target is read, and the target's info and the client's own become
//! one.
//!
//! Begin with [`open_session`]; `specs/Opening.antt` tells it as a sentence, and `specs/Verdict.antt` which refusal is
//! due by its calls. `proofs/Versions.antt` has the law by
//! which later parts of the session leave its course lawful.
#![tactic(auto)]

mod joining;
mod opening;
mod reading;

pub use opening::open_session;
