//! The streams, the clock and the random source of the system, as a run asks them.
//!
//! This is the edge: what they answer, no contract can say. What is proved is that each fault is counted. Begin with
//! [`ReaderSource`].
#![tactic(auto)]

mod reader_source;
mod system_clock;
mod system_entropy;
mod writer_sink;

pub use reader_source::ReaderSource;
pub use system_clock::SystemClock;
pub use system_entropy::SystemEntropy;
pub use writer_sink::WriterSink;
