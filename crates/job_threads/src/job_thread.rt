ghost use Rattle.job_threads.specs.Outcomes.{IsOutcomeOf};

use crate::outcome::{Outcome, Started};
use crate::threaded::Running;
use jop_outside::Job;
use std::thread::Threads;

/// A job, and the thread that does it.
#[derive(Drop)]
pub struct JobThread<R, J: Job> {
    pub(crate) rt: R,
    pub(crate) started: Started<J>,
}

/// What came of a job. One that was given back is done now.
fn ended<J: Job>(outcome: Outcome<J::Done, J>) -> J::Done
    ensures { (job : J) → IsOutcomeOf J.gives job outcome → J.gives job result }
{
    match outcome {
        Outcome::Ended(made) => made,
        Outcome::Back(job) => job.work(),
    }
}

impl<R: Threads + Drop, J: Job> Running<J> for JobThread<R, J> {
    ghost use Rattle.job_threads.specs.StartedJobs.{started_job};

    ghost job = { λ t. started_job t.started };

    fn wait(self) -> J::Done {
        let JobThread { rt, started } = self;
        match started {
            Started::Runs(handle) => ended(handle.join(&rt)),
            Started::Ran(ran) => ran.made(),
        }
    }
}
