//! Leases on a target, by lock files: who may change what other clients read.
//!
//! A client lists the locks, puts its own if none is in the way, and lists again; only the second
//! listing gives it the lease. `specs/Phase.antt` says where a session stands with its lease by its
//! own calls and their replies alone, and `specs/Discipline.antt` what a session may do there;
//! `specs/Exclusion.antt` says what that comes to when many clients share a store. Begin with
//! [`acquire`], with [`call_held`], by which all work under a lease is done, and with the law
//! [`held_apart`].
#![tactic(auto)]

mod acquisition;
mod ask;
mod content;
mod error;
mod laws;
mod lease;
mod leaving;
mod lock;
mod locks;
mod renewal;
mod sight;
mod work;

pub use acquisition::acquire;
pub use error::{LeaseErr, Seen};
pub use laws::{blocked, can_upgrade, held_apart};
pub use lease::Lease;
pub use leaving::release;
pub use lock::{CLIENT_TYPE, LIFE, Lock, RENEWAL, live};
pub use locks::{Locks, blocking, locks_of};
pub use renewal::renew;
pub use work::call_held;
