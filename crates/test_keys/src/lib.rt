//! Tests of sealing and of keys: known lengths, what is sealed and opened again, and each refusal.
#![tactic(auto)]

#[cfg(test)]
mod items;
#[cfg(test)]
mod locks;
#[cfg(test)]
mod pieces;
