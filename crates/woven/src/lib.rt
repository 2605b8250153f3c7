//! The log of a shared store and the trails of its clients, woven into one history of all clients.
//!
//! It stands on `call_log`, which says when a log agrees with trails, and on the laws over every
//! history. `specs/Weaving.antt` says how the two become one; `specs/Telling.antt` what is asked of the
//! clients. Begin with the law [`woven_is_honest`]: what a closed log and its trails come to.
#![tactic(auto)]

mod laws;

pub use laws::{
    agreeing_trails_can_be_woven, closed_logs_can_be_woven, openings_are_orderly,
    woven_is_exclusive, woven_is_honest, woven_is_kept, woven_tells_each,
};
