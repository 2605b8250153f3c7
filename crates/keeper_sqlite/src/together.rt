//! Statements that are made together, or not at all.

ghost use Rattle.std.specs.Prelude.{◌≡◌, List, OnErr, OnOk};
ghost use Rattle.keeper_sqlite.specs.declared.said.Said.{Said};
ghost use Rattle.keeper_sqlite.specs.Speaking.{IsInTransaction, MakesAll, Says, standing_in, with_made};

use crate::database::Database;
use keeper_file::Trouble;
use std::alloc::Global;

/// What is said within a transaction.
pub(crate) trait Job {
    /// What has to hold of the job.
    ghost is_fit: { Self → Type 0 };

    /// The statements that it says.
    ghost says: { Self → List Said };

    fn say<D: Database>(&self, alloc: Global, database: &mut D) -> Result<(), Trouble>
        requires fit { is_fit self.now }
        requires begun { IsInTransaction (D.state database.old).spoken }
        ensures { Says (says self.now)
            (D.state database.old).spoken result (D.state database.new).spoken };
}

/// A transaction. Where it is refused it may be open still.
fn attempt<J: Job, D: Database>(alloc: Global, database: &mut D, job: &J) -> Result<(), Trouble>
    requires { J.is_fit job.now }
    ensures ok { OnOk result ((D.state database.new).spoken
        ≡ with_made (J.says job.now) (D.state database.old).spoken) }
    ensures err { OnErr result
        (standing_in (D.state database.new).spoken ≡ standing_in (D.state database.old).spoken) }
{
    database.begin()?;
    job.say(alloc, database)?;
    database.commit()?;
    Ok(())
}

/// A transaction, which is rolled back where it is refused.
pub(crate) fn together<J: Job, D: Database>(
    alloc: Global,
    database: &mut D,
    job: &J,
) -> Result<(), Trouble>
    requires { J.is_fit job.now }
    ensures { MakesAll (J.says job.now)
        (D.state database.old).spoken result (D.state database.new).spoken }
{
    match attempt(alloc, database, job) {
        Ok(()) => Ok(()),
        Err(trouble) => {
            database.roll_back();
            Err(trouble)
        }
    }
}
