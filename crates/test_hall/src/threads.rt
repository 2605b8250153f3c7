ghost use Rattle.std.specs.Prelude.{◌≡◌};

use crate::deeds::{Deed, make_all};
use crate::seats::{OpenSeat, open_hall};
use job_threads::{Threaded, begin};
use jop_outside::{Job, Spawner};
use jop_target::Diary;
use std::alloc::Global;
use std::sync::Wait;
use std::test::Fail;
use std::thread;

/// The diary of a client that makes eight calls.
fn stay<R: Wait + Clone + Drop>(alloc: Global, seat: &mut OpenSeat<R>) -> Diary {
    let mut diary = Diary::new(alloc);
    let deeds = [Deed::Make, Deed::Put, Deed::Get, Deed::Get];
    let _ = make_all(alloc, seat, &deeds, &mut diary);
    let _ = make_all(alloc, seat, &deeds, &mut diary);
    diary
}

#[test]
fn four_clients_at_once_agree_with_the_log(rt: HostRuntime) -> Result<(), Fail> {
    let alloc = rt.alloc();
    let hall = open_hall(rt, alloc, 100)?;
    let mut threads = Vec::new(alloc);
    for number in 1..=4 {
        let mut seat = hall.seat(alloc, number)?;
        threads.push(thread::spawn(&rt, move || stay(alloc, &mut seat))?)?;
    }
    let mut trails = Vec::new(alloc);
    for thread in threads {
        trails.push(thread.join(&rt))?;
    }
    assert!(rt; trails.len() == 4);
    let Ok(log) = hall.close(alloc, trails.as_slice()) else {
        return Err(Fail::new("log and trails differ"));
    };
    assert_eq!(rt; log.len(), 32);
    Ok(())
}

/// Comes to twice its number.
#[derive(Clone, Copy, Debug)]
struct Double(u32);

impl Job for Double {
    ghost use Rattle.std.specs.Prelude.{◌≡◌, ◌+◌};

    type Done = u64;

    ghost gives = { λ job done. done ≡ job.0 + job.0 };

    fn work(self) -> u64 {
        u64::from(self.0) + u64::from(self.0)
    }
}

/// Starts and finishes a job for each of these numbers, and gives what came of them.
fn doubled<'a, S: Spawner<Double>>(
    alloc: Global,
    spawner: &'a mut S,
    numbers: &[u32],
) -> Result<&'a [u64], Fail>
    requires { S.ready spawner.old }
{
    for number in numbers {
        if spawner.start(Double(*number)).is_err() {
            return Err(Fail::new("a job was handed back"));
        }
    }
    spawner.finish(alloc)?;
    Ok(spawner.done())
}

#[test]
fn jobs_in_threads_are_kept_in_their_order(rt: HostRuntime) -> Result<(), Fail> {
    let alloc = rt.alloc();
    let mut threaded = Threaded::new(alloc, move |job: Double| begin(&rt, alloc, job));
    assert_eq!(rt;
        doubled(alloc, &mut threaded, &[3, 1, 2])?,
        [6, 2, 4].as_slice()
    );
    Ok(())
}
