//! Sessions from their begin to their end: taking a lease, what is done under it, and giving it up.
//!
//! Begin with [`check_on`], [`upgrade_on`] and [`SessionErr`]; `specs/Checks.antt` and
//! `specs/Upgrades.antt` say why they answer as they do, and `specs/Leases.antt` what every session
//! promises of its lease. Each is a task (`src/task.rt`) of one session (`src/making.rt`).
#![tactic(auto)]

mod checking;
mod making;
mod outcome;
mod session_err;
mod task;
mod upgrading;

pub use checking::check_on;
pub use session_err::SessionErr;
pub use upgrading::upgrade_on;
