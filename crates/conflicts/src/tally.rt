ghost use Rattle.std.specs.Prelude.{◌≡◌};
ghost use Rattle.conflicts.specs.Reports.{if_copied, tally_of};

use local_store::Change;

/// Which number of a report a change counts for.
#[derive(Clone, Copy, Debug, PartialEq, Eq)]
pub enum Tally {
    Put,
    Removed,
    Taken,
    Gone,
    /// A text became a conflict note.
    Copied,
    /// None.
    Other,
}

impl Tally {
    pub fn of(change: &Change) -> Tally
        ensures { result ≡ tally_of change.now }
    {
        match change {
            Change::Uploaded(_, _) => Tally::Put,
            Change::Dropped(_) => Tally::Removed,
            Change::Taken(_, _, _) => Tally::Taken,
            Change::Gone(_) => Tally::Gone,
            Change::Conflict(_, _, copies) => if_copied(*copies),
            Change::Moved(_) => Tally::Copied,
            _ => Tally::Other,
        }
    }
}

fn if_copied(copies: bool) -> Tally
    ensures { result ≡ if_copied copies }
{
    if copies { Tally::Copied } else { Tally::Other }
}
