//! A store of files in memory that many clients use at once, each in a thread of its own, and that
//! keeps a log of their calls: the hall.
//!
//! It stands on `call_log`, which says when a log agrees with what its clients have written down.
//! Begin with [`Hall`], which lies under one lock and does one call at a time, and with
//! [`SharedHall`], which hands out the seats and closes the log.
#![tactic(auto)]

mod gate;
mod hall_store;
mod open;
mod seat;
mod shared_hall;
mod turns;

pub use gate::Gate;
pub use hall_store::Hall;
pub use open::Open;
pub use seat::Seat;
pub use shared_hall::SharedHall;
pub use turns::Turns;
