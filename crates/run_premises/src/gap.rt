ghost use Rattle.std.specs.Prelude.{◌≡◌, ◌≤◌, ◌<◌, ◌↔◌, ◌&&◌, ◌||◌, ℕ, List, true, length, map};
ghost use Rattle.law_kept.specs.Gap.{NoOtherUploadBetween};
ghost use Rattle.law_kept.specs.Telling.{steps_of};
ghost use Rattle.local_store.specs.Tale.{Tale, plain_steps};
ghost use Rattle.run_premises.specs.Between.{IsCrossedAt, IsGapAt, is_check_turn, is_upload_turn, turns_for};
ghost use Rattle.run_premises.specs.Steps.{history_step};

use crate::run_step::RunStep;
use crate::turn::{Turn, is_check_turn, is_own_turn, is_upload_turn, step_turn, uploaded_item};
use jop_base::{ClientId, Id};

fn is_crossed_check(turn: Turn, crossed: bool) -> bool
    ensures { result ≡ (is_check_turn turn && crossed) }
{
    is_check_turn(turn) && crossed
}

fn is_crossed_by(crossed: bool, turn: Turn) -> bool
    ensures { result ≡ (crossed || is_upload_turn turn) }
{
    crossed || is_upload_turn(turn)
}

/// Whether another client's put of an item's file lands between this client's last check of it and
/// this place.
fn is_crossed(id: &Id, client: &ClientId, steps: &[RunStep<'_>], put: usize) -> bool
    requires { put ≤ length steps.now }
    ensures { (result ≡ true)
        ↔ IsCrossedAt (turns_for id.now client.now (map history_step steps.now)) put }
{
    let mut crossed = false;
    for place in (0..put).rev() {
        let turn = step_turn(id, client, &steps[place]);
        if is_own_turn(turn) {
            return is_crossed_check(turn, crossed);
        }
        crossed = is_crossed_by(crossed, turn);
    }
    false
}

/// Whether the step at a place puts an item's file though the check before it is crossed.
fn is_gap_at(steps: &[RunStep<'_>], put: usize) -> bool
    requires { put < length steps.now }
    ensures { (result ≡ true) ↔ IsGapAt (map history_step steps.now) put }
{
    let step = &steps[put];
    match uploaded_item(step) {
        Some(id) => is_crossed(&id, step.client, steps, put),
        None => false,
    }
}

/// Whether no other client's put of an item's file lands between a client's check of it and the put
/// that follows. The changes of the clients' tables don't matter to that: the answer is that of every
/// history with these steps.
pub fn has_no_gap(steps: &[RunStep<'_>]) -> bool
    ensures { (tale : Tale) → plain_steps tale.steps ≡ map history_step steps.now →
        (result ≡ true) ↔ ((id : List ℕ) → NoOtherUploadBetween (steps_of id tale)) }
{
    for put in 0..steps.len() {
        if is_gap_at(steps, put) {
            return false;
        }
    }
    true
}
