ghost use Rattle.std.specs.Prelude.{◌≡◌};

use jop_outside::Job;
use std::marker::Model;
use std::snapshot::Snapshot;
use std::thread::{Promise, PromisedHandle};

/// What a thread gives back: what came of its job, or the job, which it didn't begin.
#[derive(Drop)]
pub(crate) enum Outcome<D, J> {
    Ended(D),
    Back(J),
}

/// The promise that what comes back is of this job.
#[derive(Drop)]
pub(crate) struct OfJob<J>(pub Snapshot<J>);

impl<J: Job> Promise<Outcome<J::Done, J>> for OfJob<J> {
    ghost use Rattle.job_threads.specs.Outcomes.{IsOutcomeOf};

    ghost kept_by = { λ p r. IsOutcomeOf J.gives p.0.value r };
}

/// What came of a job that was done at once. Contracts see it as the job.
#[derive(Drop)]
pub(crate) struct Ran<J: Job> {
    pub(crate) made: J::Done,
    pub(crate) job: Snapshot<J>,
}

impl<J: Job> Model for Ran<J> {
    ghost Value = { J };

    ghost view = { λ r. r.job.value };

    ghost invariant = { λ r. J.gives r.job.value r.made };
}

impl<J: Job> Ran<J> {
    pub fn made(self) -> J::Done
        ensures { J.gives self result }
    {
        self.made
    }
}

/// A job that was started.
#[derive(Drop)]
pub(crate) enum Started<J: Job> {
    Runs(PromisedHandle<Outcome<J::Done, J>, OfJob<J>>),
    Ran(Ran<J>),
}
