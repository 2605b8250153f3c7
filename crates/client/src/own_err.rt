use jop_outside::Failed;
use keeper::KeeperErr;

/// Why there is no client's id.
#[derive(Clone, Copy, Debug, PartialEq, Eq)]
pub enum OwnErr {
    KeeperFault,
    EntropyFault,
    NoMemory,
}

impl From<KeeperErr> for OwnErr {
    ghost use Rattle.std.specs.Prelude.{◌≡◌};
    ghost use Rattle.client.specs.Owning.{keeper_err};

    ghost from_gives = { λ k e. e ≡ keeper_err k };

    fn from(error: KeeperErr) -> OwnErr {
        match error {
            KeeperErr::Fault => OwnErr::KeeperFault,
            KeeperErr::NoMemory => OwnErr::NoMemory,
        }
    }
}

impl From<Failed> for OwnErr {
    ghost use Rattle.std.specs.Prelude.{◌≡◌};
    ghost use Rattle.client.specs.declared.own_err.OwnErr.TheVariants.{EntropyFault};

    ghost from_gives = { λ _ e. e ≡ EntropyFault };

    fn from(_error: Failed) -> OwnErr {
        OwnErr::EntropyFault
    }
}
