ghost use Rattle.std.specs.Prelude.{◌≡◌, ◌≤◌, ◌++◌, ◌∷◌, [], ℕ, List, IfErr, OnErr, OnOk};
ghost use Rattle.jop_outside.specs.Jobs.{Finishes};
ghost use Rattle.jop_outside.specs.Outside.{HasRisen};

use crate::job::Job;
use std::alloc::{AllocError, Global};

/// What has jobs done: in threads of their own, or one after the other.
pub trait Spawner<J: Job>: Drop {
    /// How often a job couldn't be started.
    ghost faults: { Self → ℕ };

    /// The jobs that were started and aren't finished, in the order in which they were started.
    ghost waiting: { Self → List J };

    /// What came of the jobs that are finished.
    ghost done: { Self → List J.Done };

    /// Whether jobs can be given to it: that what starts them does so.
    ghost ready: { Self → Type 0 };

    /// Starts a job, or hands it back.
    fn start(&mut self, job: J) -> Result<(), J>
        requires ready { ready self.old }
        ensures ready { ready self.new }

        ensures ok { OnOk result (waiting self.new ≡ waiting self.old ++ job ∷ []) }
        ensures err { IfErr result (λ back. back ≡ job) }
        ensures kept { OnErr result (waiting self.new ≡ waiting self.old) }
        ensures done { done self.new ≡ done self.old }

        ensures later { faults self.old ≤ faults self.new }
        ensures cause { OnErr result (HasRisen (faults self.old) (faults self.new)) };

    /// Waits until all jobs are finished that were started. Out of memory they have ended too, and what came of the
    /// first of them is kept.
    fn finish(&mut self, alloc: Global) -> Result<(), AllocError>
        requires ready { ready self.old }
        ensures ready { ready self.new }

        ensures finishes { Finishes J.gives (waiting self.old) (done self.old) (done self.new) result }
        ensures empty { waiting self.new ≡ [] }

        ensures later { faults self.old ≤ faults self.new };

    /// What came of the finished jobs, in the order in which they were started.
    fn done(&self) -> &[J::Done]
        ensures { result.now ≡ done self.now };
}
