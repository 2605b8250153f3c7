ghost use Rattle.std.specs.Prelude.{IfOk, OnErr};
ghost use Rattle.keeper_sqlite.specs.Answers.{DatabaseNow};
ghost use Rattle.keeper_sqlite.specs.Speaking.{MadeNoMore};

use crate::work::Work;
use keeper_file::Trouble;
use std::alloc::Global;

/// A database that was opened, on which work is done.
pub trait Opened: Drop {
    /// What was said to it, what it shows, and what stands in it, if it tells.
    ghost state: { Self → DatabaseNow };

    fn do_work<W: Work>(&mut self, alloc: Global, work: &W) -> Result<W::Answer, Trouble>
        requires { W.is_fit work.now }
        ensures ok { IfOk result
            (λ answer. W.answers work.now (state self.old) answer (state self.new)) }
        ensures err { OnErr result (MadeNoMore (state self.old).spoken (state self.new).spoken) };
}
