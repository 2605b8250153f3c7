ghost use Rattle.std.specs.Prelude.{IfOk, OnErr};
ghost use Rattle.keeper_sqlite.specs.Answers.{DatabaseNow};
ghost use Rattle.keeper_sqlite.specs.Speaking.{MadeNoMore};

use crate::database::Database;
use keeper_file::Trouble;
use std::alloc::Global;

/// What is done with an open database.
pub trait Work {
    type Answer: Drop;

    /// What has to hold of the work.
    ghost is_fit: { Self → Type 0 };

    /// What holds of an answer, between how the database was and how it is.
    ghost answers: { Self → DatabaseNow → Self.Answer → DatabaseNow → Type 0 };

    fn done<D: Database>(&self, alloc: Global, database: &mut D) -> Result<Self::Answer, Trouble>
        requires { is_fit self.now }
        ensures ok { IfOk result (λ answer.
            answers self.now (D.state database.old) answer (D.state database.new)) }
        ensures err { OnErr result
            (MadeNoMore (D.state database.old).spoken (D.state database.new).spoken) };
}
