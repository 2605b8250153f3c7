use crate::deeds::{Deed, make_all};
use call_log::LogEntry;
use hall::{Hall, Open, Seat, SharedHall};
use jop_outside::MemClock;
use jop_target::Diary;
use std::alloc::{AllocError, Global};
use std::sync::Wait;
use std::test::Fail;

/// A place at a hall whose gate is open, at a target of version 1.
pub(crate) type OpenSeat<R> = Seat<R, MemClock, Open, 1>;

pub(crate) type OpenHall<R> = SharedHall<R, MemClock, Open, 1>;

/// A hall whose clock goes on by 3 milliseconds a call, and fails at the call of this number.
pub(crate) fn open_hall<R: Wait + Clone + Drop>(
    rt: R,
    alloc: Global,
    fails_at: u64,
) -> Result<OpenHall<R>, AllocError> {
    let mut clock = MemClock::new(alloc, 0, 3);
    clock.fail(fails_at)?;
    let hall = Hall::new(alloc, clock, 1)?;
    SharedHall::new(rt, alloc, hall, Open)
}

/// The diary of a client that makes these calls from a seat of this number.
fn visit<R: Wait + Clone + Drop>(
    alloc: Global,
    hall: &OpenHall<R>,
    number: u32,
    deeds: &[Deed],
) -> Result<Diary, AllocError> {
    let mut seat = hall.seat(alloc, number)?;
    let mut diary = Diary::new(alloc);
    make_all(alloc, &mut seat, deeds, &mut diary)?;
    Ok(diary)
}

fn entry_text(alloc: Global, entry: &LogEntry) -> Result<String, AllocError> {
    let moment = entry.moment;
    let seat = entry.seat;
    format!(in alloc; "{moment} {seat} {}: {}\n", entry.call, entry.reply)
}

/// Each entry, in words.
fn log_text(alloc: Global, log: &[LogEntry]) -> Result<String, AllocError> {
    let mut text = String::new(alloc);
    for entry in log {
        let line = entry_text(alloc, entry)?;
        text.push_str(line.as_str())?;
    }
    Ok(text)
}

fn closed<R: Wait + Clone + Drop>(
    alloc: Global,
    hall: &OpenHall<R>,
    trails: &[Diary],
) -> Result<String, Fail> {
    if trails.len() > 9 {
        return Err(Fail::new("too many trails"));
    }
    match hall.close(alloc, trails) {
        Ok(log) => Ok(log_text(alloc, log.as_slice())?),
        Err(_) => Err(Fail::new("log and trails differ")),
    }
}

/// A hall whose clock shows 1.5 seconds first, and goes on by 700 milliseconds, seen by the second.
fn coarse_hall<R: Wait + Clone + Drop>(rt: R, alloc: Global) -> Result<OpenHall<R>, AllocError> {
    let hall = Hall::new(alloc, MemClock::new(alloc, 1_500, 700), 1_000)?;
    SharedHall::new(rt, alloc, hall, Open)
}

fn seen_by_the_second<R: Wait + Clone + Drop>(rt: R, alloc: Global) -> Result<String, Fail> {
    let hall = coarse_hall(rt, alloc)?;
    let mut trails = Vec::new(alloc);
    trails.push(visit(
        alloc,
        &hall,
        1,
        &[Deed::Make, Deed::Make, Deed::Make, Deed::Make],
    )?)?;
    closed(alloc, &hall, trails.as_slice())
}

#[test]
fn moments_are_rounded_down(rt: HostRuntime) -> Result<(), Fail> {
    let alloc = rt.alloc();
    let said = seen_by_the_second(rt, alloc)?;
    if said.as_str() == ROUNDED {
        Ok(())
    } else {
        Err(Fail::new(format_args!("came to {:?}", said.as_str())))
    }
}

const ROUNDED: &str = "1000 1 make locks/: done at 1000
2000 1 make locks/: done at 2000
2000 1 make locks/: done at 2000
3000 1 make locks/: done at 3000
";

fn first_and_second<R: Wait + Clone + Drop>(rt: R, alloc: Global) -> Result<String, Fail> {
    let hall = open_hall(rt, alloc, 3)?;
    let mut trails = Vec::new(alloc);
    trails.push(visit(alloc, &hall, 1, &[Deed::Get, Deed::Put])?)?;
    trails.push(visit(alloc, &hall, 2, &[Deed::Put, Deed::Get])?)?;
    closed(alloc, &hall, trails.as_slice())
}

/// The second finds what the first has put; its first call fails with the clock, and didn't land.
#[test]
fn what_one_puts_the_other_gets(rt: HostRuntime) -> Result<(), Fail> {
    let alloc = rt.alloc();
    let said = first_and_second(rt, alloc)?;
    if said.as_str() == SAID {
        Ok(())
    } else {
        Err(Fail::new(format_args!("came to {:?}", said.as_str())))
    }
}

const SAID: &str = "0 1 get info.json: absent at 0
3 1 put info.json, 1 bytes: done at 3
3 2 put info.json, 1 bytes: failed
6 2 get info.json: got 1 bytes at 6
";
