ghost use Rattle.std.specs.Prelude.{◌≡◌, ◌++◌, min, length, take, drop};

use jop_base::Bytes;
use std::marker::Model;

/// The bytes that a reader has still to get: contracts see these alone. They aren't moved as they are read.
#[derive(Debug, Drop)]
pub struct Unread {
    bytes: Bytes,
    place: usize,
}

impl Model for Unread {
    ghost use Rattle.std.specs.Prelude.{List, ℕ, drop, length, ◌≤◌};

    ghost Value = { List ℕ };

    ghost view = { λ u. drop u.place u.bytes };

    ghost invariant = { λ u. u.place ≤ length u.bytes };
}

impl Unread {
    /// All of these bytes.
    pub fn of(bytes: Bytes) -> Unread
        ensures { result ≡ bytes }
    {
        Unread { bytes, place: 0 }
    }

    pub fn as_slice(&self) -> &[u8]
        ensures { result.now ≡ self.now }
    {
        &self.bytes.as_slice()[self.place..]
    }

    /// Moves bytes to the start of a slice, as many as fit, and answers how many.
    pub fn give(&mut self, into: &mut [u8]) -> usize
        ensures count { result ≡ min (length into.old) (length self.old) }
        ensures given { into.new ≡ take result self.old ++ drop result into.old }
        ensures left { self.new ≡ drop result self.old }
    {
        let left = &self.bytes.as_slice()[self.place..];
        let count = into.len().min(left.len());
        into[..count].copy_from_slice(&left[..count]);
        self.place += count;
        count
    }
}
