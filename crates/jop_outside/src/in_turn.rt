ghost use Rattle.std.specs.Prelude.{◌≡◌, ◌++◌, ◌∷◌, [], List};
ghost use Rattle.jop_outside.specs.Jobs.{Finishes};

use crate::job::Job;
use crate::spawner::Spawner;
use std::alloc::{AllocError, Global};
use std::mem;

/// Does jobs one after the other, when they are to be finished. A job is handed back where there is no memory to
/// keep it.
#[derive(Drop)]
pub struct InTurn<J: Job> {
    jobs: Vec<J>,
    done: Vec<J::Done>,
    failures: u64,
}

impl<J: Job> InTurn<J> {
    /// Without jobs.
    pub fn new(alloc: Global) -> InTurn<J>
        ensures waiting { ⟦<InTurn<J> as Spawner<J>>⟧.waiting result ≡ [] }
        ensures done { ⟦<InTurn<J> as Spawner<J>>⟧.done result ≡ [] }
        ensures ready { ⟦<InTurn<J> as Spawner<J>>⟧.ready result }
    {
        InTurn {
            jobs: Vec::new(alloc),
            done: Vec::new(alloc),
            failures: 0,
        }
    }
}

/// Keeps what came of one more job, if there has been memory so far.
fn keep<J: Job>(
    done: &mut Vec<J::Done>,
    made: J::Done,
    outcome: Result<(), AllocError>,
) -> Result<(), AllocError>
    ensures { (jobs : List J) (job : J) (before : List J.Done)
        → Finishes J.gives jobs before done.old.items outcome → J.gives job made
        → Finishes J.gives (jobs ++ job ∷ []) before done.new.items result }
{
    outcome?;
    done.push(made)?;
    Ok(())
}

/// Does all jobs, and keeps what comes of them as long as there is memory.
fn work_all<J: Job>(jobs: Vec<J>, done: &mut Vec<J::Done>) -> Result<(), AllocError>
    ensures { Finishes J.gives jobs.items done.old.items done.new.items result }
{
    let mut outcome = Ok(());
    for job in jobs {
        outcome = keep::<J>(done, job.work(), outcome);
    }
    outcome
}

impl<J: Job> Spawner<J> for InTurn<J> {
    ghost faults = { λ s. s.failures };

    ghost waiting = { λ s. s.jobs.items };

    ghost done = { λ s. s.done.items };

    ghost ready = { λ s. Unit {0} };

    fn start(&mut self, job: J) -> Result<(), J> {
        match self.jobs.push(job) {
            Ok(()) => Ok(()),
            Err(refused) => {
                self.failures = self.failures.saturating_add(1);
                Err(refused.value)
            }
        }
    }

    fn finish(&mut self, alloc: Global) -> Result<(), AllocError> {
        let jobs = mem::replace(&mut self.jobs, Vec::new(alloc));
        work_all(jobs, &mut self.done)
    }

    fn done(&self) -> &[J::Done] {
        self.done.as_slice()
    }
}
