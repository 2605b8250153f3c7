ghost use Rattle.std.specs.Prelude.{◌≡◌, ◌≤◌, length, nat_eq};
ghost use Rattle.std.specs.List.{starts_with};
ghost use Rattle.local_commands.specs.IdStarts.{with_zeros};
ghost use Rattle.local_commands.specs.TypedIds.{id_of_first, only_id, rows_from, start_in};

use crate::start_count::StartCount;
use jop_base::Id;
use local_store::Row;
use std::marker::Model;

/// The first 4 to 31 digits of an id.
#[derive(Clone, Copy, Debug, PartialEq, Eq)]
pub struct IdStart {
    /// The digits, and zeros behind them.
    digits: Id,
    /// How many they are.
    len: usize,
}

impl Model for IdStart {
    ghost use Rattle.std.specs.Prelude.{List, ℕ, length, take};
    ghost use Rattle.local_commands.specs.IdStarts.{IsPadded, with_zeros};

    ghost Value = { List ℕ };

    ghost view = { λ s. take s.len s.digits };

    ghost invariant = { λ s. IsPadded s.digits s.len };

    ghost inverse = { λ text. record { digits = with_zeros text; len = length text } };

    ghost inverse_ok = { λ s h i. record { digits = h.zeros i; len = h.long i } };
}

impl IdStart {
    /// The first digits that a text is. None exactly if it isn't 4 to 31 bytes, each `0` to `9` or `a` to `f`.
    #[tactic(auto, using(crate::proofs::Starts::is_padded, crate::proofs::Starts::take_padded, crate::proofs::Starts::start_short, crate::proofs::Starts::start_long, crate::proofs::Starts::start_of_id, crate::proofs::Starts::start_of_other))]
    pub(crate) fn read(text: &[u8]) -> Option<IdStart>
        ensures { result ≡ start_in text.now }
    {
        if text.len() < 4 || text.len() > 31 {
            return None;
        }
        match Id::read(&pad(text)) {
            Some(digits) => Some(IdStart {
                digits,
                len: text.len(),
            }),
            None => None,
        }
    }

    /// The digits.
    pub fn as_slice(&self) -> &[u8]
        ensures { result.now ≡ self.now }
    {
        &self.digits.as_str().as_bytes()[..self.len]
    }

    /// The id of the one row whose id begins so, or how many there are.
    #[tactic(auto, using(crate::proofs::Starts::only_one, crate::proofs::Starts::not_one, crate::proofs::Starts::none_first))]
    pub(crate) fn find(&self, rows: &[Row]) -> Result<Id, StartCount>
        ensures { result ≡ only_id self.now (rows_from self.now rows.now) }
    {
        let count = self.count(rows);
        match self.first(rows) {
            Some(id) if count == 1 => Ok(id),
            _ => Err(StartCount {
                start: *self,
                count,
            }),
        }
    }

    /// How many of the rows have an id that begins so.
    fn count(&self, rows: &[Row]) -> u64
        ensures { result ≡ length (rows_from self.now rows.now) }
    {
        let mut count: u64 = 0;
        for row in rows {
            if self.begins(&row.id) {
                count += 1;
            }
        }
        count
    }

    /// The id of the first of the rows whose id begins so.
    fn first(&self, rows: &[Row]) -> Option<Id>
        ensures { result ≡ id_of_first (rows_from self.now rows.now) }
    {
        for row in rows {
            if self.begins(&row.id) {
                return Some(row.id);
            }
        }
        None
    }

    /// Whether the id begins so.
    fn begins(&self, id: &Id) -> bool
        ensures { result ≡ starts_with nat_eq id.now self.now }
    {
        id.as_str().as_bytes().starts_with(self.as_slice())
    }
}

/// The digits, and zeros behind them.
fn pad(text: &[u8]) -> [u8; 32]
    requires { length text.now ≤ 32 }
    ensures { result ≡ with_zeros text.now }
{
    let mut digits = [b'0'; 32];
    digits[..text.len()].copy_from_slice(text);
    digits
}
