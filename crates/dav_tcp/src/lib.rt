//! Links over sockets of TCP, the trusted edge: [`TcpLink`] connects to a server, and [`StreamLink`] is a connection
//! that a server accepted. Neither tells what is left or was written.
#![tactic(auto)]

mod pace;
mod steady_clock;
mod stream;
mod stream_link;
mod tcp_link;

pub use steady_clock::SteadyClock;
pub use stream_link::StreamLink;
pub use tcp_link::TcpLink;
