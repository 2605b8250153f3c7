use crate::machine::{Client, client_at};
use item_kinds::updated_of;
use jop_base::{Id, MAX_TIME};
use jop_outside::MemClock;
use keeper::Keeper;
use local_store::Tables;
use std::alloc::{AllocError, Global};
use std::test::Fail;

/// Makes a note in a notebook, and edits it at five milliseconds past 1970.
fn make_and_edit<K: Keeper>(alloc: Global, client: &mut Client<K>) -> Result<u8, AllocError> {
    client.play(alloc, "mkbook Home", b"")?;
    client.play(alloc, "add 000102030405060708090a0b0c0d0e0f Milk", b"two")?;
    client.clock = MemClock::new(alloc, 5, 0);
    client.play(alloc, "edit 101112131415161718191a1b1c1d1e1f", b"three")
}

/// When the note was last changed, in milliseconds since 1970.
fn last_changed(tables: &Tables) -> Option<u64> {
    let id = Id::read(b"101112131415161718191a1b1c1d1e1f")?;
    let row = tables.rows.at(&id)?;
    Some(updated_of(row.content.item()))
}

/// The exit status of an edit at five milliseconds past 1970, of a note that was made at this time, and when
/// the note was last changed then.
fn edited(alloc: Global, made: u64) -> Result<(u8, Option<u64>), AllocError> {
    let mut client = client_at(alloc, made)?;
    let exit = make_and_edit(alloc, &mut client)?;
    Ok((exit, last_changed(client.keeper.tables())))
}

#[test]
fn an_edit_is_later_than_the_last_one(rt: HostRuntime) -> Result<(), Fail> {
    let alloc = rt.alloc();
    for (made, exit, changed) in [
        (1_600_000_000_000, 0, 1_600_000_000_002),
        (MAX_TIME, 17, MAX_TIME),
    ] {
        assert_eq!(rt; edited(alloc, made)?, (exit, Some(changed)));
    }
    Ok(())
}
