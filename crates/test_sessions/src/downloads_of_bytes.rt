use crate::overfull::Overfull;
use crate::texts::{OTHER, R, RESOURCE};
use jop_target::{MemTarget, Target};
use std::alloc::Global;
use std::test::Fail;
use test_client::{BrokenOff, Client, OWN, Part, Standing, Step, counts, target_of};

const SAVED: Standing = Standing {
    rows: &[(R, RESOURCE, false)],
    copies: &[],
};

/// Whether the client has the resource, with these bytes.
fn has(alloc: Global, client: &mut Client, bytes: Option<&str>) -> Result<bool, BrokenOff> {
    let saved = SAVED.is_of(alloc, client.keeper.tables())?;
    match (client.bytes(alloc, R)?, bytes) {
        (Some(own), Some(bytes)) => Ok(saved && own.as_slice() == bytes.as_bytes()),
        (None, None) => Ok(saved),
        _ => Ok(false),
    }
}

/// Another client uploads the resource with these bytes.
fn upload(alloc: Global, target: &mut MemTarget, bytes: &str) -> Result<(), BrokenOff> {
    let mut client = Client::after(alloc, OTHER, &[Step::Save(R, RESOURCE)])?;
    attach_and_sync(alloc, &mut client, target, bytes)
}

fn attach_and_sync(
    alloc: Global,
    client: &mut Client,
    target: &mut MemTarget,
    bytes: &str,
) -> Result<(), BrokenOff> {
    client.attach(alloc, R, bytes)?;
    client.sync(alloc, target, Part::Upload)?;
    Ok(())
}

/// A target with the resource, and these bytes of it.
fn target_with(alloc: Global, bytes: &str) -> Result<MemTarget, BrokenOff> {
    let mut target = target_of(alloc, &[])?;
    upload(alloc, &mut target, bytes)?;
    Ok(target)
}

/// Whether a new client takes the resource, with these bytes.
fn takes<T: Target>(alloc: Global, target: &mut T, bytes: Option<&str>) -> Result<bool, BrokenOff> {
    let mut client = Client::after(alloc, OWN, &[])?;
    takes_it(alloc, &mut client, target, bytes)
}

fn takes_it<T: Target>(
    alloc: Global,
    client: &mut Client,
    target: &mut T,
    bytes: Option<&str>,
) -> Result<bool, BrokenOff> {
    let report = client.sync(alloc, target, Part::Download)?;
    Ok(counts(&report) == [0, 0, 1, 0, 0, 0] && has(alloc, client, bytes)?)
}

fn takes_bytes(alloc: Global) -> Result<bool, BrokenOff> {
    let mut target = target_with(alloc, "hello")?;
    takes(alloc, &mut target, Some("hello"))
}

fn takes_it_without_bytes(alloc: Global) -> Result<bool, BrokenOff> {
    let mut target = target_of(alloc, &[(R, RESOURCE)])?;
    takes(alloc, &mut target, None)
}

/// The bytes are too many.
fn takes_it_alone(alloc: Global) -> Result<bool, BrokenOff> {
    let mut target = Overfull::over(target_of(alloc, &[(R, RESOURCE)])?);
    takes(alloc, &mut target, None)
}

/// A client that has a resource of its own with these bytes, which waits.
fn client_with(alloc: Global, bytes: &str) -> Result<Client, BrokenOff> {
    let mut client = Client::after(alloc, OWN, &[Step::Save(R, RESOURCE)])?;
    client.attach(alloc, R, bytes)?;
    Ok(client)
}

/// Whether its resource gives way to the one that is on the target, with that one's bytes.
fn gives_way(alloc: Global) -> Result<bool, BrokenOff> {
    let mut target = target_with(alloc, "hello")?;
    let mut client = client_with(alloc, "other")?;
    gives_way_to(alloc, &mut client, &mut target, Some("hello"))
}

/// Whether it does so and keeps its own bytes, where there are none on the target.
fn keeps_its_own(alloc: Global) -> Result<bool, BrokenOff> {
    let mut target = target_of(alloc, &[(R, RESOURCE)])?;
    let mut client = client_with(alloc, "other")?;
    gives_way_to(alloc, &mut client, &mut target, Some("other"))
}

fn gives_way_to(
    alloc: Global,
    client: &mut Client,
    target: &mut MemTarget,
    bytes: Option<&str>,
) -> Result<bool, BrokenOff> {
    let report = client.sync(alloc, target, Part::Upload)?;
    Ok(counts(&report) == [0, 0, 0, 0, 0, 0] && has(alloc, client, bytes)?)
}

#[test]
fn a_resource_gives_way_with_its_bytes(rt: HostRuntime) -> Result<(), Fail> {
    assert!(rt; gives_way(rt.alloc())?);
    Ok(())
}

#[test]
fn a_resource_that_gives_way_keeps_its_bytes_where_there_are_no_others(
    rt: HostRuntime,
) -> Result<(), Fail> {
    assert!(rt; keeps_its_own(rt.alloc())?);
    Ok(())
}

#[test]
fn bytes_come_with_their_resource(rt: HostRuntime) -> Result<(), Fail> {
    assert!(rt; takes_bytes(rt.alloc())?);
    Ok(())
}

#[test]
fn a_resource_without_bytes_is_taken(rt: HostRuntime) -> Result<(), Fail> {
    assert!(rt; takes_it_without_bytes(rt.alloc())?);
    Ok(())
}

#[test]
fn bytes_that_are_too_many_are_left(rt: HostRuntime) -> Result<(), Fail> {
    assert!(rt; takes_it_alone(rt.alloc())?);
    Ok(())
}
