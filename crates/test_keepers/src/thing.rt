ghost use Rattle.std.specs.Prelude.{◌≡◌, true};
ghost use Rattle.jop_base.specs.Id.{is_digit};

use jop_base::Id;

/// A note `1..`, a notebook `2..` or a resource `3..`.
#[derive(Clone, Copy)]
pub(crate) enum Thing {
    Note,
    Book,
    File,
}

/// The id of 32 times this digit.
#[tactic(auto, using(crate::proofs::Ids::repeated_id))]
pub(crate) fn repeated(digit: u8) -> Id
    requires { is_digit digit ≡ true }
{
    match Id::read(&[digit; 32]) {
        Some(id) => id,
        None => unreachable!(),
    }
}

impl Thing {
    pub(crate) fn id(self) -> Id {
        match self {
            Thing::Note => repeated(b'1'),
            Thing::Book => repeated(b'2'),
            Thing::File => repeated(b'3'),
        }
    }

    /// The number of its kind.
    pub(crate) fn kind(self) -> u64 {
        match self {
            Thing::Note => 1,
            Thing::Book => 2,
            Thing::File => 4,
        }
    }
}
