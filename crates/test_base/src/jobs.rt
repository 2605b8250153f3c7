ghost use Rattle.std.specs.Prelude.{◌≡◌};

use jop_outside::{InTurn, Job, Spawner};
use std::alloc::Global;
use std::test::Fail;

/// Comes to its own number.
#[derive(Drop)]
struct Counted {
    number: u64,
}

impl Job for Counted {
    type Done = u64;

    ghost gives = { λ job done. done ≡ job.number };

    fn work(self) -> u64 {
        self.number
    }
}

/// Starts and finishes a job for each of these numbers, and gives what came of them.
fn finished<'a, S: Spawner<Counted>>(
    alloc: Global,
    spawner: &'a mut S,
    numbers: &[u64],
) -> Result<&'a [u64], Fail>
    requires { S.ready spawner.old }
{
    for number in numbers {
        if spawner.start(Counted { number: *number }).is_err() {
            return Err(Fail::new("a job was handed back"));
        }
    }
    spawner.finish(alloc)?;
    Ok(spawner.done())
}

#[test]
fn jobs_are_finished_in_their_order(rt: HostRuntime) -> Result<(), Fail> {
    let mut in_turn = InTurn::new(rt.alloc());
    assert_eq!(rt;
        finished(rt.alloc(), &mut in_turn, &[3, 1, 2])?,
        [3, 1, 2].as_slice()
    );
    Ok(())
}
