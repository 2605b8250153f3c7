//! What is said of the stopped program. The law is a function with nothing to do, whose contract
//! says it.

ghost use Rattle.law_stops.specs.Headlines.{StoppedRunsHaveHeadline};

use crate::laws::stopped_runs_keep_the_promises;

/// What is promised of each run of the program is promised of what is left of it wherever it was
/// stopped: no other client's write falls within an upgrade, no two upgrades overlap, each write lands
/// on the version that was read, and no saved text of a note is lost.
pub fn stopped_runs_have_the_headline()
    ensures { StoppedRunsHaveHeadline }
{
    stopped_runs_keep_the_promises();
}
