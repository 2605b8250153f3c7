ghost use Rattle.std.specs.Prelude.{◌≡◌, ◌≤◌, ◌+◌, ◌++◌, length, take, drop};
ghost use Rattle.aes_ccm.specs.Lists.{xored};
ghost use Rattle.aes_ccm.specs.Aes.{sub_bytes, shift_rows, mix_columns};

use crate::tables::{mixed_column, plain_column};
use crate::xor::xor_from;
use std::marker::Model;

/// A state of AES (FIPS 197, 3.4): four columns, each a word whose first byte is the highest. Contracts see its bytes.
#[derive(Drop)]
pub(crate) struct State {
    a: u32,
    b: u32,
    c: u32,
    d: u32,
}

impl Model for State {
    ghost use Rattle.std.specs.Prelude.{List, ℕ};

    ghost Value = { List ℕ };

    ghost use Rattle.aes_ccm.specs.Columns.{bytes_of_state};

    ghost view = { bytes_of_state };
}

impl State {
    #[inline(always)]
    pub(crate) fn of(block: [u8; 16]) -> State
        ensures { result ≡ block }
    {
        State {
            a: u32::from_be_bytes([block[0], block[1], block[2], block[3]]),
            b: u32::from_be_bytes([block[4], block[5], block[6], block[7]]),
            c: u32::from_be_bytes([block[8], block[9], block[10], block[11]]),
            d: u32::from_be_bytes([block[12], block[13], block[14], block[15]]),
        }
    }

    /// The bytes of a text from the place on.
    #[inline(always)]
    pub(crate) fn at(text: &[u8], place: usize) -> State
        requires { place + 16 ≤ length text.now }
        ensures { result ≡ take 16 (drop place text.now) }
    {
        let mut block = [0; 16];
        block.copy_from_slice(&text[place..place + 16]);
        State::of(block)
    }

    #[inline(always)]
    pub(crate) fn bytes(&self) -> [u8; 16]
        ensures { result ≡ self.now }
    {
        let [a, b, c, d] = self.a.to_be_bytes();
        let [e, f, g, h] = self.b.to_be_bytes();
        let [i, j, k, l] = self.c.to_be_bytes();
        let [m, n, o, p] = self.d.to_be_bytes();
        [a, b, c, d, e, f, g, h, i, j, k, l, m, n, o, p]
    }

    /// Both added.
    #[inline(always)]
    pub(crate) fn plus(&self, other: &State) -> State
        ensures { result ≡ xored self.now other.now }
    {
        State {
            a: self.a ^ other.a,
            b: self.b ^ other.b,
            c: self.c ^ other.c,
            d: self.d ^ other.d,
        }
    }

    /// The state with what a text has from the place on added, as far as it goes.
    #[inline(always)]
    pub(crate) fn plus_at(&self, text: &[u8], place: usize) -> State
        requires { place ≤ length text.now }
        ensures { result ≡ xored self.now (take 16 (drop place text.now)) }
    {
        if text.len() - place < 16 {
            let mut block = self.bytes();
            xor_from(&mut block, 0, &text[place..]);
            return State::of(block);
        }
        self.plus(&State::at(text, place))
    }

    /// Adds the state to what a text has from the place on, as far as it goes.
    #[inline(always)]
    pub(crate) fn add_to(&self, text: &mut [u8], place: usize)
        requires { place ≤ length text.old }
        ensures { text.new ≡ take place text.old ++ xored (drop place text.old) self.now }
    {
        let block = self.bytes();
        if text.len() - place < 16 {
            xor_from(text, place, &block);
            return;
        }
        let sum = State::at(text, place).plus(self).bytes();
        text[place..place + 16].copy_from_slice(&sum);
    }

    /// Each byte substituted, the rows shifted and the columns mixed (5.1.1 to 5.1.3).
    #[inline(always)]
    pub(crate) fn mixed(&self) -> State
        ensures { result ≡ mix_columns (shift_rows (sub_bytes self.now)) }
    {
        let [a, b, c, d, e, f, g, h, i, j, k, l, m, n, o, p] = self.bytes();
        State {
            a: mixed_column(a, f, k, p),
            b: mixed_column(e, j, o, d),
            c: mixed_column(i, n, c, h),
            d: mixed_column(m, b, g, l),
        }
    }

    /// Each byte substituted and the rows shifted.
    #[inline(always)]
    pub(crate) fn shifted(&self) -> State
        ensures { result ≡ shift_rows (sub_bytes self.now) }
    {
        let [a, b, c, d, e, f, g, h, i, j, k, l, m, n, o, p] = self.bytes();
        State {
            a: plain_column(a, f, k, p),
            b: plain_column(e, j, o, d),
            c: plain_column(i, n, c, h),
            d: plain_column(m, b, g, l),
        }
    }
}
