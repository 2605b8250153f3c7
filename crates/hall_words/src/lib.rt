//! The three words of the hall's program, as they are read by `clap`: what is to be done, and two
//! numbers.
//!
//! Begin with [`match_words`].
#![tactic(auto)]

mod words;

pub use words::match_words;
