//! What the steps of an upgrade come to over every history of all clients. The law is a function
//! with nothing to do, whose contract says it.

ghost use Rattle.jop_target.specs.History.{History, IsHonest};
ghost use Rattle.law_exclusion.specs.Runs.{DoneSessionsLeaveUpgraded, IsAsUpgraded, IsRedone};

/// An upgrade that was stopped after any of its calls, and one that is done behind it, leave the
/// same target as one whole upgrade: whichever call failed, landed or was never heard.
pub fn redone()
    ensures redone { (h : History) → IsHonest h → (again : IsRedone h) →
        IsAsUpgraded h again.before }

    // The same, as seen by one client whose session has made all steps.
    ensures joined { DoneSessionsLeaveUpgraded }
{}
