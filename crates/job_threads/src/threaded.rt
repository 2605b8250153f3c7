ghost use Rattle.std.specs.Prelude.{◌≡◌, [], ◌++◌, ◌∷◌, List, map};
ghost use Rattle.jop_outside.specs.Jobs.{Finishes};
ghost use Rattle.job_threads.specs.Outcomes.{StartsOrHandsBack};

use jop_outside::{Job, Spawner};
use std::alloc::{AllocError, Global};
use std::mem;

/// A job that was started.
pub trait Running<J: Job>: Drop {
    /// The job.
    ghost job: { Self → J };

    /// Waits for what comes of it.
    fn wait(self) -> J::Done
        ensures { J.gives (job self) result };
}

/// Does each job in a thread of its own, which `begin` starts. A job is handed back where no thread can
/// be started for it.
#[derive(Drop)]
pub struct Threaded<J: Job, H, F> {
    begin: F,
    started: Vec<H>,
    done: Vec<J::Done>,
    failures: u64,
}

impl<J: Job, H: Running<J>, F: Fn(J) -> Result<H, J> + Drop> Threaded<J, H, F> {
    /// Without jobs. `begin` starts the job that it is given, or hands it back.
    pub fn new(alloc: Global, begin: F) -> Threaded<J, H, F>
        requires callable { F.IsAlwaysCallable begin }
        requires begins { StartsOrHandsBack F.post H.job begin }
        ensures ready { ⟦<Threaded<J, H, F> as Spawner<J>>⟧.ready result }
        ensures waiting { ⟦<Threaded<J, H, F> as Spawner<J>>⟧.waiting result ≡ [] }
        ensures done { ⟦<Threaded<J, H, F> as Spawner<J>>⟧.done result ≡ [] }
    {
        Threaded {
            begin,
            started: Vec::new(alloc),
            done: Vec::new(alloc),
            failures: 0,
        }
    }
}

/// Keeps what came of one more job, if there has been memory so far.
fn keep<J: Job>(
    done: &mut Vec<J::Done>,
    made: J::Done,
    outcome: Result<(), AllocError>,
) -> Result<(), AllocError>
    ensures { (jobs : List J) (job : J) (before : List J.Done)
        → Finishes J.gives jobs before done.old.items outcome → J.gives job made
        → Finishes J.gives (jobs ++ job ∷ []) before done.new.items result }
{
    outcome?;
    done.push(made)?;
    Ok(())
}

/// Waits for all jobs, and keeps what comes of them as long as there is memory.
fn wait_all<J: Job, H: Running<J>>(all: Vec<H>, done: &mut Vec<J::Done>) -> Result<(), AllocError>
    ensures { Finishes J.gives (map H.job all.items) done.old.items done.new.items result }
{
    let mut outcome = Ok(());
    for started in all {
        outcome = keep::<J>(done, started.wait(), outcome);
    }
    outcome
}

impl<J: Job, H: Running<J>, F: Fn(J) -> Result<H, J> + Drop> Spawner<J> for Threaded<J, H, F> {
    ghost use Rattle.std.specs.Prelude.{map};
    ghost use Rattle.job_threads.specs.Outcomes.{StartsOrHandsBack};

    ghost faults = { λ s. s.failures };

    ghost waiting = { λ s. map H.job s.started.items };

    ghost done = { λ s. s.done.items };

    ghost ready = { λ s. F.IsAlwaysCallable s.begin × StartsOrHandsBack F.post H.job s.begin };

    fn start(&mut self, job: J) -> Result<(), J> {
        if self.started.reserve(1).is_err() {
            self.failures = self.failures.saturating_add(1);
            return Err(job);
        }
        match (self.begin)(job) {
            Ok(started) => {
                let _ = self.started.push(started);
                Ok(())
            }
            Err(job) => {
                self.failures = self.failures.saturating_add(1);
                Err(job)
            }
        }
    }

    fn finish(&mut self, alloc: Global) -> Result<(), AllocError> {
        let all = mem::replace(&mut self.started, Vec::new(alloc));
        wait_all::<J, H>(all, &mut self.done)
    }

    fn done(&self) -> &[J::Done] {
        self.done.as_slice()
    }
}
