use crate::place::Place;
use std::test::Fail;

/// Both clients change a note: the text of the one that syncs last is put aside, its row is the first
/// one's item, and nothing waits. Later one removes the note, and the other changes it: its text is put
/// aside, and its row goes.
const DAY: &str = "\
one|upgrade dir:||0|version 3~
one|mkbook Home||0|101112131415161718191a1b1c1d1e1f~
one|add 101112131415161718191a1b1c1d1e1f Milk|one|0|202122232425262728292a2b2c2d2e2f~
one|sync dir:||0|put 2~removed 0~taken 0~gone 0~conflicts 0~bad 0~locked 0~
two|sync dir:||0|put 0~removed 0~taken 2~gone 0~conflicts 0~bad 0~locked 0~
one|edit 202122232425262728292a2b2c2d2e2f|two|0|
two|edit 202122232425262728292a2b2c2d2e2f --title Oats|three|0|
one|sync dir:||0|put 1~removed 0~taken 0~gone 0~conflicts 0~bad 0~locked 0~
two|sync dir:||0|put 0~removed 0~taken 0~gone 0~conflicts 1~bad 0~locked 0~
two|ls 101112131415161718191a1b1c1d1e1f||0|202122232425262728292a2b2c2d2e2f Milk~
two|conflicts||0|1 202122232425262728292a2b2c2d2e2f Oats~
two|sync dir:||0|put 0~removed 0~taken 0~gone 0~conflicts 0~bad 0~locked 0~
one|sync dir:||0|put 0~removed 0~taken 0~gone 0~conflicts 0~bad 0~locked 0~
one|rm 202122232425262728292a2b2c2d2e2f||0|
one|sync dir:||0|put 0~removed 1~taken 0~gone 0~conflicts 0~bad 0~locked 0~
two|edit 202122232425262728292a2b2c2d2e2f|four|0|
two|sync dir:||0|put 0~removed 0~taken 0~gone 0~conflicts 1~bad 0~locked 0~
two|ls 101112131415161718191a1b1c1d1e1f||0|
two|conflicts||0|1 202122232425262728292a2b2c2d2e2f Oats~2 202122232425262728292a2b2c2d2e2f Milk~
";

fn first_surprise(rt: &HostRuntime) -> Result<Option<usize>, Fail> {
    let place = Place::new(rt, "day")?;
    let surprise = place.first_surprise(DAY)?;
    place.remove()?;
    Ok(surprise)
}

#[test]
fn two_clients_have_a_day_over_files(rt: HostRuntime) -> Result<(), Fail> {
    assert!(rt; first_surprise(&rt)?.is_none());
    Ok(())
}
