//! Tests of items and infos, of tables, of a keeper in memory and of the changes that a user makes:
//! texts of other programs, printed texts, and each public call with ample memory.
#![tactic(auto)]

#[cfg(test)]
mod infos;
#[cfg(test)]
mod keepers;
#[cfg(test)]
mod kinds;
#[cfg(test)]
mod makers;
#[cfg(test)]
mod named;
#[cfg(test)]
mod new_items;
#[cfg(test)]
mod steps;
#[cfg(test)]
mod tables;
#[cfg(test)]
mod texts;
