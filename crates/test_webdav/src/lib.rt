//! Tests of what real WebDAV servers say: of their listings, of exchanges over a link, of calls with their replies, and
//! of targets that they hold, over public calls alone.
#![tactic(auto)]

#[cfg(test)]
mod calls;
#[cfg(test)]
mod exchanges;
#[cfg(test)]
mod listings;
#[cfg(test)]
mod targets;
