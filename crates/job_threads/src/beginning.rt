ghost use Rattle.std.specs.Prelude.{◌≡◌};
ghost use Rattle.std.specs.Result.{ForOk, ForErr};
ghost use Rattle.job_threads.specs.Outcomes.{IsOutcomeOf};
ghost use Rattle.job_threads.specs.StartedJobs.{started_job};

use crate::job_thread::JobThread;
use crate::outcome::{OfJob, Outcome, Ran, Started};
use jop_outside::Job;
use std::alloc::Global;
use std::snapshot::Snapshot;
use std::sync::Arc;
use std::sync::atomic::{AtomicBool, Ordering};
use std::thread;
use std::thread::Threads;

/// Does a job, or gives it back where that is asked.
fn work_or_back<J: Job>(job: J, back: &AtomicBool) -> Outcome<J::Done, J>
    ensures { IsOutcomeOf J.gives job result }
{
    if back.load(Ordering::SeqCst) {
        Outcome::Back(job)
    } else {
        Outcome::Ended(job.work())
    }
}

/// Starts a thread for a job. It hands the job back where there is no memory, or the system starts no
/// thread.
pub fn begin<R: Threads + Clone + Drop, J: Job + Send + 'static>(
    rt: &R,
    alloc: Global,
    job: J,
) -> Result<JobThread<R, J>, J>
where
    J::Done: Send + 'static,
    ensures ok { ForOk result (λ thread. started_job thread.started ≡ job) }
    ensures err { ForErr result (λ back. back ≡ job) }
{
    let Ok(rt) = rt.clone() else {
        return Err(job);
    };
    let Ok(back) = Arc::new(alloc, AtomicBool::new(false)) else {
        return Err(job);
    };
    let Ok(theirs) = Arc::try_clone(&back) else {
        return Err(job);
    };
    let snapshot = Snapshot::of(&job);
    let promise = OfJob(Snapshot::of(&job));
    match thread::spawn_with(&rt, promise, move || work_or_back(job, &theirs)) {
        Ok(handle) => Ok(JobThread {
            rt,
            started: Started::Runs(handle),
        }),
        Err(refused) => {
            // What is refused is the closure, which gives the job back where that is asked of it.
            back.store(true, Ordering::SeqCst);
            match (refused.value)() {
                Outcome::Back(job) => Err(job),
                Outcome::Ended(made) => Ok(JobThread {
                    rt,
                    started: Started::Ran(Ran {
                        made,
                        job: snapshot,
                    }),
                }),
            }
        }
    }
}
