//! Tests of sealed texts and their ciphers: the vectors of the standards, outside examples, each public call with ample
//! memory, and hostile texts.
#![tactic(auto)]

#[cfg(test)]
mod chunks;
#[cfg(test)]
mod escapes;
#[cfg(test)]
mod hostile;
#[cfg(test)]
mod sealed;
#[cfg(test)]
mod sealing;
#[cfg(test)]
mod standards;
