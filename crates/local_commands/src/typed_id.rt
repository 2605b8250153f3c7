ghost use Rattle.std.specs.Prelude.{◌≡◌, IsOk, Ok};
ghost use Rattle.local_commands.specs.TypedIds.{meant_id, meant_id_if, typed_id};

use crate::id_start::IdStart;
use crate::start_count::StartCount;
use jop_base::Id;
use local_store::Tables;

/// An id as it is typed: whole, or its first digits, which stand for the one row whose id begins so.
#[derive(Clone, Copy, Debug, PartialEq, Eq)]
pub enum TypedId {
    Whole(Id),
    Start(IdStart),
}

impl TypedId {
    /// The id that a text types. None exactly if it isn't 4 to 32 bytes, each `0` to `9` or `a` to `f`.
    #[tactic(auto, using(crate::proofs::Starts::typed_whole, crate::proofs::Starts::typed_other))]
    pub fn read(text: &[u8]) -> Option<TypedId>
        ensures { result ≡ typed_id text.now }
    {
        if let Some(id) = Id::read(text) {
            return Some(TypedId::Whole(id));
        }
        match IdStart::read(text) {
            Some(start) => Some(TypedId::Start(start)),
            None => None,
        }
    }

    /// The id that is meant: the whole one, whether a row has it or not, or that of the one row whose id
    /// begins so. The error says how many rows' ids do, if it isn't one.
    pub fn find(&self, tables: &Tables) -> Result<Id, StartCount>
        ensures { result ≡ meant_id tables.now self.now }
    {
        match self {
            TypedId::Whole(id) => Ok(*id),
            TypedId::Start(start) => start.find(tables.rows.as_slice()),
        }
    }

    /// The same, where the tables say which it is.
    pub(crate) fn found(&self, tables: &Tables) -> Id
        requires { IsOk (meant_id tables.now self.now) }
        ensures { meant_id tables.now self.now ≡ Ok result }
    {
        match self.find(tables) {
            Ok(id) => id,
            Err(_) => unreachable!(),
        }
    }
}

/// The same of an id that may be typed or not.
pub(crate) fn find_if(typed: &Option<TypedId>, tables: &Tables) -> Result<Option<Id>, StartCount>
    ensures { result ≡ meant_id_if tables.now typed.now }
{
    match typed {
        Some(typed) => Ok(Some(typed.find(tables)?)),
        None => Ok(None),
    }
}

/// The same, where the tables say which it is if one is typed.
pub(crate) fn found_if(typed: &Option<TypedId>, tables: &Tables) -> Option<Id>
    requires { IsOk (meant_id_if tables.now typed.now) }
    ensures { meant_id_if tables.now typed.now ≡ Ok result }
{
    match find_if(typed, tables) {
        Ok(id) => id,
        Err(_) => unreachable!(),
    }
}
