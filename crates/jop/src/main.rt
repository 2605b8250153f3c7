//! `jop`, a synchronising client for Joplin notebooks. `main` only makes the real things that
//! [`jop_start::run_named`] is handed.
#![tactic(auto)]

mod password;
mod watchers;
mod words;

use crate::password::read_password;
use crate::watchers::watchers;
use crate::words::read_words;
use jop_host::{ReaderSource, SystemClock, SystemEntropy, WriterSink};
use jop_start::{StartErr, Streams, SystemOpener, run_named};
use std::process::ExitCode;

fn main(rt: HostRuntime) -> ExitCode {
    ExitCode::from(match start(&rt) {
        Ok(exit) => exit,
        Err(error) => tell(&rt, error),
    })
}

/// Runs once, with the files, the streams, the clock and the random source of the system.
fn start(rt: &HostRuntime) -> Result<u8, StartErr> {
    let words = read_words(rt)?;
    let mut streams = Streams {
        // A locked standard input would read a pipe byte by byte.
        input: ReaderSource::new(rt.stdin()),
        out: WriterSink::new(rt.stdout()),
        err: WriterSink::new(rt.stderr()),
        clock: SystemClock::new(*rt),
        entropy: SystemEntropy::new(*rt),
    };
    run_named(
        rt.alloc(),
        &words,
        &mut SystemOpener::new(*rt, watchers(rt), read_password(rt)?),
        &mut streams,
    )
}

/// Says why nothing was run, and gives the exit status for it.
fn tell(rt: &HostRuntime, error: StartErr) -> u8 {
    let _ = match error {
        StartErr::EntropyFault => eprintln!(rt; "random source fault"),
        StartErr::NoMemory => eprintln!(rt; "no memory"),
    };
    error.exit()
}
