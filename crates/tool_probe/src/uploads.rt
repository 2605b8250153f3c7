//! How long an upload in memory takes.

use crate::notes::note_saved;
use crate::trouble::Trouble;
use jop_base::let_go;
use jop_target::MemTarget;
use keeper::Keeper;
use std::alloc::Global;
use std::time::Instant;
use test_client::{Client, OWN, Part};

/// Saves the note of this number.
fn save(alloc: Global, client: &mut Client, number: u64) -> Result<(), Trouble> {
    let change = note_saved(alloc, number)?;
    let saved = client.keeper.commit(alloc, &change);
    let_go(change);
    Ok(saved?)
}

fn save_all(alloc: Global, client: &mut Client, count: u64) -> Result<(), Trouble> {
    for number in 1..=count {
        save(alloc, client, number)?;
    }
    Ok(())
}

/// Uploads what the client has to a target, and answers the milliseconds that it took.
fn upload(rt: &HostRuntime, client: &mut Client, target: &mut MemTarget) -> Result<u128, Trouble> {
    let start = Instant::now(rt)?;
    client.sync(rt.alloc(), target, Part::Upload)?;
    Ok(start.elapsed(rt)?.as_millis())
}

/// Has a client save so many notes, uploads them to a new target, and prints how long that took.
fn time(rt: &HostRuntime, client: &mut Client, count: u64) -> Result<(), Trouble> {
    save_all(rt.alloc(), client, count)?;
    let took = upload(rt, client, &mut MemTarget::new(rt.alloc(), 1000, 1))?;
    Ok(println!(rt; "{took}")?)
}

/// Has a client in memory save so many notes and upload them to a new target in memory, and prints the
/// milliseconds that the upload took.
pub(crate) fn time_upload(rt: &HostRuntime, count: u64) -> Result<(), Trouble> {
    let mut client = Client::after(rt.alloc(), OWN, &[])?;
    time(rt, &mut client, count)
}
