//! Worked cases, played through [`jop_cli::run`] over all that is outside it: runs of one command, days
//! of two clients over tables in memory and over records, and, through [`jop_start::run_named`], over
//! files of tables and a folder, and what a run asks to be opened. Beside them leases, and histories of
//! all clients.
#![tactic(auto)]

#[cfg(test)]
mod alone;
#[cfg(test)]
mod asked;
#[cfg(test)]
mod checks;
#[cfg(test)]
mod day;
#[cfg(test)]
mod due;
#[cfg(test)]
mod exclusive;
#[cfg(test)]
mod faults;
#[cfg(test)]
mod file_day;
#[cfg(test)]
mod first;
mod histories;
#[cfg(test)]
mod keyed;
#[cfg(test)]
mod locks;
#[cfg(test)]
mod machine;
#[cfg(test)]
mod place;
#[cfg(test)]
mod tidying;
#[cfg(test)]
mod times;
#[cfg(test)]
mod two;

pub use histories::{
    a_sync_lock_blocks_an_upgrade, renews_before_the_end_alone, two_upgraders_block_each_other,
};
