use crate::deeds::{Deed, make_all};
use call_log::LogEntry;
use hall::{Hall, Seat, SharedHall, Turns};
use jop_outside::{Draw, MemClock};
use jop_target::Diary;
use std::alloc::{AllocError, Global};
use std::sync::Wait;
use std::test::Fail;
use std::thread;

type DrawnSeat<R> = Seat<R, MemClock, Turns<R>, 0>;

type DrawnHall<R> = SharedHall<R, MemClock, Turns<R>, 0>;

/// An empty hall of three seats, whose turns are drawn.
fn drawn_hall<R: Wait + Clone + Drop>(
    rt: R,
    gate_rt: R,
    alloc: Global,
) -> Result<DrawnHall<R>, AllocError> {
    let hall = Hall::new(alloc, MemClock::new(alloc, 0, 1), 1)?;
    let gate = Turns::new(gate_rt, alloc, 3, Draw { state: 7 })?;
    SharedHall::new(rt, alloc, hall, gate)
}

/// The diary of a client that makes three calls and leaves.
fn stay<R: Wait + Clone + Drop>(alloc: Global, seat: &mut DrawnSeat<R>) -> Diary {
    let mut diary = Diary::new(alloc);
    let _ = make_all(alloc, seat, &[Deed::Put, Deed::Get, Deed::Get], &mut diary);
    seat.leave();
    diary
}

/// The seats of the entries, in order.
fn seats_of(alloc: Global, log: &[LogEntry]) -> Result<String, AllocError> {
    let mut seats = String::new(alloc);
    for entry in log {
        let seat = format!(in alloc; "{}", entry.seat)?;
        seats.push_str(seat.as_str())?;
    }
    Ok(seats)
}

#[test]
fn each_call_is_in_the_turn_that_is_drawn(rt: HostRuntime) -> Result<(), Fail> {
    let alloc = rt.alloc();
    let hall = drawn_hall(rt, rt, alloc)?;
    let mut threads = Vec::new(alloc);
    for number in 1..=3 {
        let mut seat = hall.seat(alloc, number)?;
        threads.push(thread::spawn(&rt, move || stay(alloc, &mut seat))?)?;
    }
    let mut trails = Vec::new(alloc);
    for thread in threads {
        trails.push(thread.join(&rt))?;
    }
    assert!(rt; trails.len() == 3);
    let Ok(log) = hall.close(alloc, trails.as_slice()) else {
        return Err(Fail::new("log and trails differ"));
    };
    assert_eq!(rt; seats_of(alloc, log.as_slice())?.as_str(), DRAWN);
    Ok(())
}

const DRAWN: &str = "331321122";
