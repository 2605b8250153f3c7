//! How the outside is seen: streams, a clock, a source of random bytes, and what has jobs done, each an object whose
//! faults are counted; and each of them in memory, the streams, the clock and the source with calls that are to fail.
//!
//! It stands on `jop_base`. Begin with [`Source`] and [`Sink`], the form that each trait of the outside takes, and with
//! [`read_to_end`] and [`write_whole`], which go through a whole stream.
#![tactic(auto)]

mod clock;
mod draw;
mod entropy;
mod failed;
mod faults;
mod in_turn;
mod job;
mod mem_clock;
mod mem_entropy;
mod mem_sink;
mod mem_source;
mod plan;
mod reading;
mod sink;
mod source;
mod spawner;
mod unread;
mod writing;

pub use clock::Clock;
pub use draw::Draw;
pub use entropy::Entropy;
pub use failed::Failed;
pub use faults::Faults;
pub use in_turn::InTurn;
pub use job::Job;
pub use mem_clock::MemClock;
pub use mem_entropy::MemEntropy;
pub use mem_sink::MemSink;
pub use mem_source::MemSource;
pub use plan::Plan;
pub use reading::{ReadErr, read_to_end};
pub use sink::Sink;
pub use source::Source;
pub use spawner::Spawner;
pub use unread::Unread;
pub use writing::{write_parts, write_whole};
