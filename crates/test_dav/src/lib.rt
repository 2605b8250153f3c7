//! Tests of WebDAV: of its messages and their parts, of the client and the server, of addresses and of
//! links of TCP, over their public calls alone.
#![tactic(auto)]

#[cfg(test)]
mod addresses;
#[cfg(test)]
mod client;
#[cfg(test)]
mod drip_link;
#[cfg(test)]
mod loops;
#[cfg(test)]
mod messages;
#[cfg(test)]
mod parts;
#[cfg(test)]
mod pieces;
#[cfg(test)]
mod server;
#[cfg(test)]
mod steps;
#[cfg(test)]
mod tcp;
