use crate::due::{has_come_out, read_due};
use crate::machine::{Client, client_at, new_entropy};
use keeper::Keeper;
use keeper_records::{MemRecords, RecordKeeper};
use std::alloc::{AllocError, Global};
use std::test::Fail;

/// A line a command: its words, its input, its exit status, and what it writes, in which `~` stands for
/// a line feed. A notebook's first id is 0001..0f, and each command that draws ids draws the next ones.
const DAY: &str = "\
mkbook Home||0|000102030405060708090a0b0c0d0e0f~
add 000102030405060708090a0b0c0d0e0f Milk|two|0|101112131415161718191a1b1c1d1e1f~
ls||0|000102030405060708090a0b0c0d0e0f Home~
ls 000102030405060708090a0b0c0d0e0f||0|101112131415161718191a1b1c1d1e1f Milk~
add 99999999999999999999999999999999 X||15|not found 99999999999999999999999999999999~
rm 000102030405060708090a0b0c0d0e0f||24|not empty 000102030405060708090a0b0c0d0e0f~
tag 101112131415161718191a1b1c1d1e1f urgent||0|
tag 101112131415161718191a1b1c1d1e1f urgent||0|
tags||0|202122232425262728292a2b2c2d2e2f urgent~
ls --tag 202122232425262728292a2b2c2d2e2f||0|101112131415161718191a1b1c1d1e1f Milk~
conflicts --clear 4||23|no conflict 4~
conflicts --show 4||23|no conflict 4~
conflicts||0|
attach photo.png image/png|12345|0|606162636465666768696a6b6c6d6e6f~
resources||0|606162636465666768696a6b6c6d6e6f photo.png~
find MIL||0|101112131415161718191a1b1c1d1e1f Milk~
find Two||0|101112131415161718191a1b1c1d1e1f Milk~
find three||0|
rename 101112131415161718191a1b1c1d1e1f Cream||0|
ls 000102030405060708090a0b0c0d0e0f||0|101112131415161718191a1b1c1d1e1f Cream~
move 101112131415161718191a1b1c1d1e1f 000102030405060708090a0b0c0d0e0f||0|
move 000102030405060708090a0b0c0d0e0f 000102030405060708090a0b0c0d0e0f||26|\
    below itself 000102030405060708090a0b0c0d0e0f~
trash||0|
edit 101112131415161718191a1b1c1d1e1f --title Oats|three|0|
ls 000102030405060708090a0b0c0d0e0f||0|101112131415161718191a1b1c1d1e1f Oats~
untag 101112131415161718191a1b1c1d1e1f 202122232425262728292a2b2c2d2e2f||0|
ls --tag 202122232425262728292a2b2c2d2e2f||0|
rm 101112131415161718191a1b1c1d1e1f||0|
cat 101112131415161718191a1b1c1d1e1f||15|not found 101112131415161718191a1b1c1d1e1f~
ls 000102030405060708090a0b0c0d0e0f||0|
";

/// The first line of the day that comes out otherwise, counted from 0.
fn first_surprise<K: Keeper>(
    alloc: Global,
    client: &mut Client<K>,
) -> Result<Option<usize>, AllocError> {
    for (number, line) in DAY.lines().enumerate() {
        let due = read_due(line);
        let exit = client.play(alloc, due.words, due.input.as_bytes())?;
        if !has_come_out(client, exit, &due) {
            return Ok(Some(number));
        }
    }
    Ok(None)
}

/// The first surprise of a day, and how many rows there are at its end.
type Outcome = (Option<usize>, usize);

fn day_in_memory(alloc: Global) -> Result<Outcome, AllocError> {
    let mut client = client_at(alloc, 5)?;
    let surprise = first_surprise(alloc, &mut client)?;
    Ok((surprise, client.keeper.tables().rows.len()))
}

fn day_over_records(alloc: Global) -> Result<Outcome, AllocError> {
    let entropy = new_entropy(alloc)?;
    let keeper = RecordKeeper::over(MemRecords::new(alloc));
    let mut client = Client::new(alloc, keeper, 5, entropy);
    let surprise = first_surprise(alloc, &mut client)?;
    Ok((surprise, client.keeper.store.tables().rows.len()))
}

/// At its end there are the notebook, one tag, and the resource.
#[test]
fn a_day_passes_in_memory(rt: HostRuntime) -> Result<(), Fail> {
    assert!(rt; day_in_memory(rt.alloc())? == (None, 3));
    Ok(())
}

#[test]
fn a_day_passes_over_records(rt: HostRuntime) -> Result<(), Fail> {
    assert!(rt; day_over_records(rt.alloc())? == (None, 3));
    Ok(())
}
