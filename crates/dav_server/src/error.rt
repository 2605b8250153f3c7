use dav_link::LinkErr;
use jop_outside::Failed;
use std::alloc::AllocError;

/// Why a connection wasn't served to its end.
#[derive(Clone, Copy, Debug, PartialEq, Eq)]
pub enum ServeErr {
    /// The link failed: its count rose.
    LinkFault,
    /// The request at hand has no response.
    NoMemory,
}

impl From<AllocError> for ServeErr {
    ghost use Rattle.std.specs.Prelude.{◌≡◌};
    ghost use Rattle.dav_server.specs.declared.error.ServeErr.TheVariants.{NoMemory};

    ghost from_gives = { λ _ e. e ≡ NoMemory };

    fn from(_error: AllocError) -> ServeErr {
        ServeErr::NoMemory
    }
}

impl From<Failed> for ServeErr {
    ghost use Rattle.std.specs.Prelude.{◌≡◌};
    ghost use Rattle.dav_server.specs.declared.error.ServeErr.TheVariants.{LinkFault};

    ghost from_gives = { λ _ e. e ≡ LinkFault };

    fn from(_error: Failed) -> ServeErr {
        ServeErr::LinkFault
    }
}

impl From<LinkErr> for ServeErr {
    ghost use Rattle.std.specs.Prelude.{◌≡◌};
    ghost use Rattle.dav_server.specs.Errors.{serve_err};

    ghost from_gives = { λ l e. e ≡ serve_err l };

    fn from(error: LinkErr) -> ServeErr {
        match error {
            LinkErr::Fault => ServeErr::LinkFault,
            LinkErr::NoMemory | LinkErr::TooLong => ServeErr::NoMemory,
        }
    }
}
