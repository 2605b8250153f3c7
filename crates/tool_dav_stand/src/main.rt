//! `tool_dav_stand`, a small server of WebDAV to try clients on: it serves a target in memory on a free
//! port of 127.0.0.1, one connection after the other, until it is ended. Nothing is kept.
//!
//! - `tool_dav_stand STEP` starts empty at the moment 0, and each call is STEP milliseconds later.
//! - `tool_dav_stand STEP busy` holds the exclusive lock of another client.
//! - `tool_dav_stand STEP fail N` fails at the call of number N, counted from 1.
//!
//! It prints `port P`. A client that sends nothing for 20 seconds is cut off. As a client of such a server, to measure:
//!
//! - `tool_dav_stand calls HOST:PORT N` puts N files of 1 KiB and gets them over one connection, and
//!   prints how long that took.
//! - `tool_dav_stand calls-at URL N` does so in a folder on a server of another make.
//! - `tool_dav_stand list HOST:PORT` lists the root, and prints how long that took.
//! - `tool_dav_stand put HOST:PORT N` puts a blob of N bytes, and `tool_dav_stand get HOST:PORT` gets it.
#![tactic(auto)]

mod measuring;
mod serving;

use crate::measuring::{Measured, measure, measure_site};
use crate::serving::{hold_lock, serve};
use anyhow::Context;
use jop_target::MemTarget;
use std::env;
use std::net::TcpListener;

fn main(rt: HostRuntime) -> anyhow::Result<()> {
    if word(&rt, 1)?.as_deref() == Some("calls-at") {
        return measure_calls_at(&rt);
    }
    if let Some(what) = measured(&rt)? {
        return measure_at(&rt, what);
    }
    match number(&rt, 1)? {
        Some(step) => stand(&rt, step),
        None => Ok(eprintln!(rt;
            "usage: tool_dav_stand STEP [busy | fail N] | calls HOST:PORT N | calls-at URL N | \
             list HOST:PORT | put HOST:PORT N | get HOST:PORT"
        )?),
    }
}

/// The argument at a place.
fn word(rt: &HostRuntime, place: usize) -> anyhow::Result<Option<String>> {
    Ok(env::args(rt)?.nth(place))
}

/// The number that the argument at a place is.
fn number(rt: &HostRuntime, place: usize) -> anyhow::Result<Option<u64>> {
    match word(rt, place)? {
        None => Ok(None),
        Some(word) => Ok(word.parse::<u64>().ok()),
    }
}

/// Serves until it is ended.
fn stand(rt: &HostRuntime, step: u64) -> anyhow::Result<()> {
    let mut target = MemTarget::new(rt.alloc(), 0, step);
    stand_on(rt, &mut target)
}

fn stand_on(rt: &HostRuntime, target: &mut MemTarget) -> anyhow::Result<()> {
    prepare(rt, target)?;
    let listener = TcpListener::bind(rt, "127.0.0.1:0")?;
    println!(rt; "port {}", listener.local_addr()?.port())?;
    serve(rt.alloc(), &listener, target);
    Ok(())
}

/// Makes the target what the words ask for.
fn prepare(rt: &HostRuntime, target: &mut MemTarget) -> anyhow::Result<()> {
    match word(rt, 2)?.as_deref() {
        Some("busy") => hold_lock(rt.alloc(), target),
        Some("fail") => fail_at(rt, target),
        _ => Ok(()),
    }
}

/// The call fails whose number the words name.
fn fail_at(rt: &HostRuntime, target: &mut MemTarget) -> anyhow::Result<()> {
    let nth = number(rt, 3)?.context("no number of a call")?;
    target.fail(nth, false)?;
    Ok(())
}

/// What the words ask to measure.
fn measured(rt: &HostRuntime) -> anyhow::Result<Option<Measured>> {
    let count = number(rt, 3)?.unwrap_or(0);
    match word(rt, 1)?.as_deref() {
        Some("calls") => Ok(Some(Measured::Calls(count))),
        Some("list") => Ok(Some(Measured::List)),
        Some("put") => Ok(Some(Measured::Put(count))),
        Some("get") => Ok(Some(Measured::Get)),
        _ => Ok(None),
    }
}

fn measure_at(rt: &HostRuntime, what: Measured) -> anyhow::Result<()> {
    let address = word(rt, 2)?.context("no server")?;
    measure(rt, address.as_str(), what)
}

fn measure_calls_at(rt: &HostRuntime) -> anyhow::Result<()> {
    let url = word(rt, 2)?.context("no URL")?;
    let count = number(rt, 3)?.context("no number of calls")?;
    measure_site(rt, url.as_str(), count)
}
