ghost use Rattle.std.specs.Prelude.{◌≡◌, ◌∷◌, [], ◌↔◌, true};
ghost use Rattle.jop_target.specs.History.{part_of};
ghost use Rattle.jop_target.specs.declared.tree.Tree.{Tree};
ghost use Rattle.lease.specs.Discipline.{Session, session_from};
ghost use Rattle.lease.specs.Exclusion.{IsTimely};
ghost use Rattle.run_premises.specs.Seen.{seen_phase};
ghost use Rattle.run_premises.specs.InTime.{IsTimelyFor, is_late, is_late_by};
ghost use Rattle.run_premises.specs.Steps.{AreOf, run_history, history_step};

use crate::own_lock::is_within;
use crate::phase::{Phase, phase_by};
use crate::run_step::{RunStep, writes};
use jop_base::ClientId;
use lease::LIFE;

/// Whether a client that stands in this phase writes at the end of its lease or behind it.
fn is_late(phase: Phase, step: &RunStep<'_>) -> bool
    ensures { result ≡ is_late phase (history_step step.now) }
{
    match phase {
        Phase::Held { kind: _, stamp } => writes(step) && !is_within(step.moment, stamp, LIFE),
        _ => false,
    }
}

/// Whether this client does.
fn is_late_by(client: &ClientId, phase: Phase, step: &RunStep<'_>) -> bool
    ensures { result ≡ is_late_by client.now phase (history_step step.now) }
{
    *step.client == *client && is_late(phase, step)
}

/// Where a client stands behind a step of any client.
#[tactic(auto, using(crate::proofs::Standing::beside_own, crate::proofs::Standing::beside_other))]
fn phase_beside(client: &ClientId, phase: Phase, step: &RunStep<'_>) -> Phase
    ensures { (s : Session) → phase ≡ seen_phase client.now s.phase →
        result ≡ seen_phase client.now (session_from client.now s
        (part_of client.now (history_step step.now ∷ []))).phase }
{
    if *step.client == *client {
        phase_by(client, phase, step.event)
    } else {
        phase
    }
}

/// Whether each write of a client lands before the end of the lease under which it is made.
pub fn is_timely_for(client: &ClientId, steps: &[RunStep<'_>]) -> bool
    ensures { (tree : Tree) →
        (result ≡ true) ↔ IsTimelyFor (run_history tree steps.now) client.now }
{
    let mut phase = Phase::Free;
    for index in 0..steps.len() {
        if is_late_by(client, phase, &steps[index]) {
            return false;
        }
        phase = phase_beside(client, phase, &steps[index]);
    }
    true
}

/// Whether each write lands before the end of the lease under which it is made.
pub fn is_timely(clients: &[ClientId], steps: &[RunStep<'_>]) -> bool
    requires { AreOf clients.now steps.now }
    ensures { (tree : Tree) → (result ≡ true) ↔ IsTimely (run_history tree steps.now) }
{
    for index in 0..clients.len() {
        if !is_timely_for(&clients[index], steps) {
            return false;
        }
    }
    true
}
