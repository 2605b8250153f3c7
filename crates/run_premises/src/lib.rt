//! Whether a run that took place had the premises of what is promised of every history: each write
//! landed before the end of its lease, and no other client's upload landed between a check and the
//! upload that followed it.
//!
//! It stands on `lease` and on `law_kept`, whose definitions these are. A run is a list of steps, as
//! `specs/Steps.antt` says. Begin with [`is_timely`] and [`has_no_gap`], which take no memory.
#![tactic(auto)]

mod gap;
mod own_lock;
mod phase;
mod role;
mod run_step;
mod timely;
mod turn;

pub use gap::has_no_gap;
pub use phase::{Phase, phase_by};
pub use run_step::RunStep;
pub use timely::{is_timely, is_timely_for};
