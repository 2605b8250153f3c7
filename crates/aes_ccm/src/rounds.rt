//! The rounds of FIPS 197, 5.1.

ghost use Rattle.std.specs.Prelude.{◌≡◌, ◌≤◌, ◌+◌, ◌*◌, take, drop};
ghost use Rattle.aes_ccm.specs.Lists.{xored};
ghost use Rattle.aes_ccm.specs.Aes.{sub_bytes, shift_rows, mix_columns, round_key, after_rounds};

use crate::state::State;

/// The words that a round takes, counted from 0.
#[inline(always)]
fn round_key(words: &[u8; 240], round: usize) -> State
    requires { round ≤ 14 }
    ensures { result ≡ round_key words.now round }
{
    State::at(words, 16 * round)
}

#[inline(always)]
fn whole_round(state: &State, key: &State) -> State
    ensures { result ≡ xored (mix_columns (shift_rows (sub_bytes state.now))) key.now }
{
    state.mixed().plus(key)
}

/// A round that mixes no columns.
#[inline(always)]
fn last_round(state: &State, key: &State) -> State
    ensures { result ≡ xored (shift_rows (sub_bytes state.now)) key.now }
{
    state.shifted().plus(key)
}

/// The block after so many rounds with the words of a schedule.
pub(crate) fn after_rounds(words: &[u8; 240], block: &State, rounds: usize) -> State
    requires some { 1 ≤ rounds }
    requires room { rounds ≤ 14 }
    ensures { result ≡ after_rounds words.now block.now rounds }
{
    let mut state = block.plus(&round_key(words, 0));
    for round in 1..rounds {
        let next = whole_round(&state, &round_key(words, round));
        state = next;
    }
    last_round(&state, &round_key(words, rounds))
}

/// Two blocks after so many rounds. Neither waits for the other, so that both take little longer than one.
#[inline(always)]
pub(crate) fn both_after_rounds(
    words: &[u8; 240],
    one: &State,
    other: &State,
    rounds: usize,
) -> (State, State)
    requires some { 1 ≤ rounds }
    requires room { rounds ≤ 14 }
    ensures one { result.0 ≡ after_rounds words.now one.now rounds }
    ensures other { result.1 ≡ after_rounds words.now other.now rounds }
{
    let first = round_key(words, 0);
    let mut left = one.plus(&first);
    let mut right = other.plus(&first);
    for round in 1..rounds {
        let key = round_key(words, round);
        let next = whole_round(&left, &key);
        let beside = whole_round(&right, &key);
        left = next;
        right = beside;
    }
    let last = round_key(words, rounds);
    (last_round(&left, &last), last_round(&right, &last))
}
