use jop_base::{Bytes, Id, Keyed};

/// A key that was looked for: its digits, if its record opens.
#[derive(Drop)]
pub struct TriedKey {
    pub id: Id,
    pub digits: Option<Bytes>,
}

impl Keyed for TriedKey {
    type Key = Id;

    ghost key = { λ k. k.id };

    fn key(&self) -> Id {
        self.id
    }
}
