ghost use Rattle.std.specs.Prelude.{◌≡◌, IfSome, is_some, length};
ghost use Rattle.aes_ccm.specs.Aes.{is_key_len, aes};

use crate::rounds::{after_rounds, both_after_rounds};
use crate::schedule::schedule;
use crate::state::State;
use std::marker::Model;

/// A key of AES (FIPS 197), ready to encipher blocks. Contracts see it as the key's bytes.
#[derive(Drop)]
pub struct Aes {
    words: [u8; 240],
    rounds: usize,
}

impl Model for Aes {
    ghost use Rattle.std.specs.Prelude.{List, ℕ};

    ghost Value = { List ℕ };

    ghost use Rattle.aes_ccm.specs.Schedule.{scheduled_key, IsSchedule};

    ghost view = { scheduled_key };

    ghost invariant = { IsSchedule };
}

impl Aes {
    /// Some exactly for a key of 16, 24 or 32 bytes.
    pub fn new(key: &[u8]) -> Option<Aes>
        ensures key { IfSome result (λ made. made ≡ key.now) }
        ensures exact { is_some result ≡ is_key_len (length key.now) }
    {
        match key.len() {
            16 | 24 | 32 => Some(Aes {
                words: schedule(key),
                rounds: key.len() / 4 + 6,
            }),
            _ => None,
        }
    }

    /// The block enciphered.
    pub fn encrypt_block(&self, block: [u8; 16]) -> [u8; 16]
        ensures { result ≡ aes self.now block }
    {
        self.encrypt(&State::of(block)).bytes()
    }

    pub(crate) fn encrypt(&self, block: &State) -> State
        ensures { result ≡ aes self.now block.now }
    {
        after_rounds(&self.words, block, self.rounds)
    }

    /// Two blocks enciphered, in little more time than one.
    #[inline(always)]
    pub(crate) fn encrypt_both(&self, one: &State, other: &State) -> (State, State)
        ensures one { result.0 ≡ aes self.now one.now }
        ensures other { result.1 ≡ aes self.now other.now }
    {
        both_after_rounds(&self.words, one, other, self.rounds)
    }
}
