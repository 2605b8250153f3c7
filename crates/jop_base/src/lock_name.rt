ghost use Rattle.std.specs.Prelude.{◌≡◌, ◌≤◌, ◌+◌, ℕ, MatchOption, IfOk, IfSome, IfNone};
ghost use Rattle.jop_base.specs.declared.lock_name.LockKind.{LockKind};
ghost use Rattle.jop_base.specs.LockNames.{Name, IsName, kind_digit, file_name};

use crate::id::ClientId;
use crate::path_name::id_before;
use crate::text::Text;
use std::alloc::{AllocError, Global};
use std::fmt;
use std::marker::Model;

/// Which lock it is: that of a client that synchronises, or that of one that changes the whole target.
#[derive(Clone, Copy, Debug, PartialEq, Eq, PartialOrd, Ord)]
pub enum LockKind {
    Sync,
    Exclusive,
}

impl LockKind {
    /// The digit that stands for it, 1 or 2, as a byte.
    pub fn digit(self) -> u8
        ensures { result ≡ kind_digit self }
    {
        match self {
            LockKind::Sync => b'1',
            LockKind::Exclusive => b'2',
        }
    }

    fn read(digit: u8) -> Option<LockKind>
        ensures some { IfSome result (λ kind. kind_digit kind ≡ digit) }
        ensures none { IfNone result ((kind : LockKind) → ¬ (kind_digit kind ≡ digit)) }
    {
        match digit {
            b'1' => Some(LockKind::Sync),
            b'2' => Some(LockKind::Exclusive),
            _ => None,
        }
    }
}

/// The name of a lock: its kind, which program its client is (0 to 9), and that client's id. The file that is the
/// lock bears it.
#[derive(Clone, Copy, Debug, PartialEq, Eq, PartialOrd, Ord)]
pub struct LockName {
    pub kind: LockKind,
    pub client_type: u8,
    pub client: ClientId,
}

impl Model for LockName {
    ghost use Rattle.std.specs.Prelude.{◌≤◌};
    ghost use Rattle.jop_base.specs.LockNames.{Name};

    ghost Value = { Name };

    ghost view = { λ n. record { kind = n.kind; client_type = n.client_type; client = n.client } };

    ghost invariant = { λ n. n.client_type ≤ 9 };

    ghost inverse = { λ n. record { kind = n.kind; client_type = n.client_type; client = n.client } };
}

impl LockName {
    /// `<type>_<clientType>_<clientId>.json`, the name of the file in its folder.
    pub fn file_name(&self, alloc: Global) -> Result<Text, AllocError>
        ensures { IfOk result (λ text. text ≡ file_name self.now) }
    {
        Ok(Text::from_string(format!(in alloc; "{self}")?))
    }

    /// The lock whose file has this name. None exactly if no lock's has.
    pub fn read(text: &[u8]) -> Option<LockName>
        ensures some { IfSome result (λ name. (file_name name ≡ text.now) × IsName name) }
        ensures none { IfNone result ((name : Name) → IsName name → ¬ (file_name name ≡ text.now)) }
    {
        let [kind, b'_', client_type, b'_', rest @ ..] = text else {
            return None;
        };
        let kind = LockKind::read(*kind)?;
        let client_type = digit_value(*client_type)?;
        let client = id_before(rest, b".json")?;
        Some(LockName {
            kind,
            client_type,
            client,
        })
    }

    /// Does nothing. A contract learns from it that the client type has one digit, and that the client's id is one.
    pub fn prove_valid(&self)
        ensures { IsName self.now }
    {
        let _ = &self.client_type;
        self.client.prove_valid();
    }
}

/// What a decimal digit counts.
fn digit_value(digit: u8) -> Option<u8>
    ensures some { IfSome result (λ value. (value ≤ 9) × (48 + value ≡ digit)) }
    ensures none { IfNone result ((value : ℕ) → value ≤ 9 → ¬ (48 + value ≡ digit)) }
{
    match digit {
        b'0'..=b'9' => Some(digit - b'0'),
        _ => None,
    }
}

impl fmt::Display for LockName {
    ghost use Rattle.std.specs.Prelude.{Some};
    ghost use Rattle.jop_base.specs.LockNames.{file_name};

    ghost output = { λ name. Some (file_name name) };

    fn fmt<W: fmt::Write>(&self, f: &mut fmt::Formatter<W>) -> fmt::Result {
        let kind = char::from(self.kind.digit());
        let client_type = char::from(b'0' + self.client_type);
        write!(f, "{kind}_{client_type}_{}.json", self.client)
    }
}
