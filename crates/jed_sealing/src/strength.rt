ghost use Rattle.std.specs.Prelude.{◌≡◌, ◌≤◌};
ghost use Rattle.jed_sealing.specs.Sealing.{bits_of, turns_of};

/// How strongly a piece is sealed.
#[derive(Clone, Copy, Debug, PartialEq, Eq)]
pub enum Strength {
    /// As a text or a blob is, under a key: by 101 turns and a key of 128 bits.
    OfText,
    /// As a key is, under its owner's password: by 10,000 turns and a key of 256 bits.
    OfKey,
}

impl Strength {
    /// How many turns the derivation of a key takes.
    pub(crate) fn turns(self) -> u32
        ensures { result ≡ turns_of self }
    {
        match self {
            Strength::OfText => 101,
            Strength::OfKey => 10_000,
        }
    }

    /// How many bits a key has.
    pub(crate) fn bits(self) -> u16
        ensures { result ≡ bits_of self }
    {
        match self {
            Strength::OfText => 128,
            Strength::OfKey => 256,
        }
    }
}
