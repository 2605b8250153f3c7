use crate::machine::{Client, client_at, new_entropy};
use jop_base::Bytes;
use keeper::Keeper;
use keeper_records::{MemRecords, RecordKeeper};
use std::alloc::{AllocError, Global};
use std::test::Fail;

/// Records whose first call fails.
fn failing_records(alloc: Global) -> Result<MemRecords, AllocError> {
    let mut records = MemRecords::new(alloc);
    records.fail(1)?;
    Ok(records)
}

/// A client over records whose first call fails.
fn failing_client(alloc: Global) -> Result<Client<RecordKeeper<MemRecords>>, AllocError> {
    let entropy = new_entropy(alloc)?;
    let records = failing_records(alloc)?;
    Ok(Client::new(alloc, RecordKeeper::over(records), 5, entropy))
}

/// Whether `ls` tells that the keeper failed.
fn is_told<K: Keeper>(alloc: Global, client: &mut Client<K>) -> Result<bool, AllocError> {
    let exit = client.play(alloc, "ls", b"")?;
    Ok(exit == 10 && client.err.written() == b"keeper fault\n".as_slice())
}

fn tells_a_failed_record(alloc: Global) -> Result<bool, AllocError> {
    let mut client = failing_client(alloc)?;
    is_told(alloc, &mut client)
}

#[test]
fn records_that_fail_are_told(rt: HostRuntime) -> Result<(), Fail> {
    assert!(rt; tells_a_failed_record(rt.alloc())?);
    Ok(())
}

/// The exit status of `mkbook Home` where the clock and the random source fail at these calls, and how
/// many rows there are then.
fn made(alloc: Global, clock_fails: u64, entropy_fails: u64) -> Result<(u8, usize), AllocError> {
    let mut client = client_at(alloc, 5)?;
    let exit = make(alloc, &mut client, clock_fails, entropy_fails)?;
    Ok((exit, client.keeper.tables().rows.len()))
}

fn make<K: Keeper>(
    alloc: Global,
    client: &mut Client<K>,
    clock_fails: u64,
    entropy_fails: u64,
) -> Result<u8, AllocError> {
    client.clock.fail(clock_fails)?;
    client.entropy.fail(entropy_fails)?;
    client.play(alloc, "mkbook Home", b"")
}

#[test]
fn nothing_is_made_without_a_time_or_an_id(rt: HostRuntime) -> Result<(), Fail> {
    let alloc = rt.alloc();
    for (clock_fails, entropy_fails, came) in [(1, 9, (13, 0)), (9, 1, (14, 0)), (9, 9, (0, 1))] {
        assert_eq!(rt; made(alloc, clock_fails, entropy_fails)?, came);
    }
    Ok(())
}

/// The exit status of `add` with this input, in a notebook that is there.
fn added(alloc: Global, input: &[u8]) -> Result<u8, AllocError> {
    let mut client = client_at(alloc, 5)?;
    add(alloc, &mut client, input)
}

fn add<K: Keeper>(alloc: Global, client: &mut Client<K>, input: &[u8]) -> Result<u8, AllocError> {
    client.play(alloc, "mkbook Home", b"")?;
    client.play(alloc, "add 000102030405060708090a0b0c0d0e0f Milk", input)
}

/// A body of a byte more than its limit.
fn long_body(alloc: Global) -> Result<Bytes, AllocError> {
    Ok(Bytes::from_vec(vec![in alloc; b'x'; 1_048_577]?))
}

#[test]
fn a_body_has_its_limit(rt: HostRuntime) -> Result<(), Fail> {
    let long = long_body(rt.alloc())?;
    assert_eq!(rt; added(rt.alloc(), long.as_slice())?, 18);
    Ok(())
}

#[test]
fn a_body_has_to_be_text(rt: HostRuntime) -> Result<(), Fail> {
    assert_eq!(rt; added(rt.alloc(), b"\xff")?, 25);
    assert_eq!(rt; added(rt.alloc(), b"two")?, 0);
    Ok(())
}
