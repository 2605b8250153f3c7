use jed_format::SjclChunk;
use jop_base::{Id, Keyed};

/// A key whose record is readable: its id, and what its digits are sealed as.
#[derive(Drop)]
pub struct LockedKey {
    pub id: Id,
    pub chunk: SjclChunk,
}

impl Keyed for LockedKey {
    type Key = Id;

    ghost key = { λ k. k.id };

    fn key(&self) -> Id {
        self.id
    }
}
