//! `tool_probe`, which tries parts of jop beside other programs, and times them, for the scripts in `tests/`
//! and `bench/`.
//!
//! - `tool_probe seal` seals by CCM what standard input says. Each line has five words with one space between
//!   them: key, nonce, associated data and text in hexadecimal digits, and the length of the tag. A line is
//!   printed for each: the sealed text and its tag in hexadecimal digits, and whether both open to the text
//!   again; or `refused`.
//! - `tool_probe speed` does each job of `cipher_speed.rt` five times, and prints a line each time: its name, the
//!   microseconds that it took, and a number that it made.
//! - `tool_probe requests` prints a line for each request of WebDAV on standard input: the line of the call that
//!   it asks for and how many bytes it takes, or its status.
//! - `tool_probe responses` writes a response of each kind, one after another.
//! - `tool_probe listing` reads the response to a listing of the root, and prints how many files it has.
//! - `tool_probe notes FILE COUNT` saves so many notes of 1 KiB with a keeper in a file, a change each, and
//!   prints the microseconds that the changes took.
//! - `tool_probe read FILE` prints the microseconds of opening a file, which is made if it isn't there, and of
//!   reading its tables, and how many rows they have.
//! - `tool_probe upload COUNT` saves so many notes of 1 KiB with a keeper in memory, uploads them to a new target
//!   in memory, and prints the milliseconds that the upload took.
//! - `tool_probe answers KIND` prints a line for each input on standard input, what it reads as: a text of
//!   an item, an info, a sealed text, a lock's name, a response to a listing, or a request (`answers.rt`).
#![tactic(auto)]

mod answers;
mod cipher_speed;
mod ciphers;
mod keepers;
mod messages;
mod notes;
mod trouble;
mod uploads;

use crate::trouble::Trouble;
use std::env;

const USAGE: &str = "usage: tool_probe seal | speed | requests | responses | listing \
    | notes FILE COUNT | read FILE | upload COUNT | answers KIND";

fn main(rt: HostRuntime) -> anyhow::Result<()> {
    let mut words = env::args(&rt)?.skip(1);
    let verb = words.next();
    let first = words.next();
    let second = words.next();
    probe(
        &rt,
        verb.as_deref().unwrap_or(""),
        first.as_deref().unwrap_or(""),
        second.as_deref().unwrap_or(""),
    )
}

/// Does what a verb says.
fn probe(rt: &HostRuntime, verb: &str, first: &str, second: &str) -> anyhow::Result<()> {
    match verb {
        "seal" => ciphers::seal(rt),
        "speed" => cipher_speed::speed(rt),
        "requests" => messages::requests(rt),
        "responses" => messages::responses(rt),
        "listing" => messages::listing(rt),
        "answers" => answers::answers(rt, first),
        "notes" => measured(keepers::time_keeper(rt, first, Some(number(second)))),
        "read" => measured(keepers::time_keeper(rt, first, None)),
        "upload" => measured(uploads::time_upload(rt, number(first))),
        _ => Ok(println!(rt; "{USAGE}")?),
    }
}

/// What came of a measurement.
fn measured(done: Result<(), Trouble>) -> anyhow::Result<()> {
    match done {
        Ok(()) => Ok(()),
        Err(trouble) => anyhow::bail!("nothing was measured: {trouble:?}"),
    }
}

/// The number that a word writes, or 0.
fn number(word: &str) -> u64 {
    word.parse::<u64>().unwrap_or(0)
}
