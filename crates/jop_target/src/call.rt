use jop_base::{Bytes, Copied, Dir, Id, Path};
use std::alloc::{AllocError, Global};
use std::fmt;

/// What a target is asked. The bytes of a blob travel beside it, so that it holds their number
/// alone.
#[derive(Debug, PartialEq, Eq, Drop)]
pub enum Call {
    List(Dir),
    Get(Path),
    Put(Path, Bytes),
    Delete(Path),
    MakeDir(Dir),
    GetBlob(Id),
    PutBlob { id: Id, len: u64 },
}

impl Copied for Call {
    fn copy(&self, alloc: Global) -> Result<Call, AllocError> {
        match self {
            Call::List(dir) => Ok(Call::List(*dir)),
            Call::Get(path) => Ok(Call::Get(*path)),
            Call::Put(path, content) => Ok(Call::Put(*path, content.copy(alloc)?)),
            Call::Delete(path) => Ok(Call::Delete(*path)),
            Call::MakeDir(dir) => Ok(Call::MakeDir(*dir)),
            Call::GetBlob(id) => Ok(Call::GetBlob(*id)),
            Call::PutBlob { id, len } => Ok(Call::PutBlob { id: *id, len: *len }),
        }
    }
}

impl fmt::Display for Call {
    ghost use Rattle.std.specs.Prelude.{Some};
    ghost use Rattle.jop_target.specs.Texts.{call_text};

    ghost output = { λ x. Some (call_text x) };

    fn fmt<W: fmt::Write>(&self, f: &mut fmt::Formatter<W>) -> fmt::Result {
        match self {
            Call::List(dir) => write!(f, "list {dir}/"),
            Call::Get(path) => write!(f, "get {path}"),
            Call::Put(path, content) => {
                let len = content.len();
                write!(f, "put {path}, {len} bytes")
            }
            Call::Delete(path) => write!(f, "delete {path}"),
            Call::MakeDir(dir) => write!(f, "make {dir}/"),
            Call::GetBlob(id) => {
                let path = Path::Blob(*id);
                write!(f, "get {path}")
            }
            Call::PutBlob { id, len } => {
                let path = Path::Blob(*id);
                write!(f, "put {path}, {len} bytes")
            }
        }
    }
}
