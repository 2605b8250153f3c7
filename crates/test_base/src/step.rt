use jop_base::{Bytes, Dir, Id, LockKind, LockName, Path};
use jop_target::Call;
use std::alloc::{AllocError, Global};
use std::test::Fail;

/// A file of a target.
#[derive(Clone, Copy)]
pub(crate) enum Name {
    Info,
    Note,
    Lock,
    Blob,
}

/// A call of a target.
#[derive(Clone, Copy)]
pub(crate) enum Step {
    List(Dir),
    MakeDir(Dir),
    Get(Name),
    Put(Name, &'static str),
    Delete(Name),
    GetBlob,
    PutBlob(&'static str),
}

/// The id of the client.
pub(crate) fn client() -> Result<Id, Fail> {
    Ok(Id::read(b"11111111111111111111111111111111").ok_or("no id")?)
}

/// The id of the note and of the blob.
fn note() -> Result<Id, Fail> {
    Ok(Id::read(b"22222222222222222222222222222222").ok_or("no id")?)
}

fn lock() -> Result<Path, Fail> {
    Ok(Path::Lock(LockName {
        kind: LockKind::Sync,
        client_type: 3,
        client: client()?,
    }))
}

fn bytes(alloc: Global, text: &str) -> Result<Bytes, AllocError> {
    Ok(Bytes::from_vec(text.as_bytes().to_vec(alloc)?))
}

impl Name {
    fn path(self) -> Result<Path, Fail> {
        match self {
            Name::Info => Ok(Path::Info),
            Name::Note => Ok(Path::Item(note()?)),
            Name::Lock => lock(),
            Name::Blob => Ok(Path::Blob(note()?)),
        }
    }
}

fn put(alloc: Global, name: Name, text: &str) -> Result<Call, Fail> {
    let path = name.path()?;
    Ok(Call::Put(path, bytes(alloc, text)?))
}

fn put_blob(text: &str) -> Result<Call, Fail> {
    let id = note()?;
    let len = text.len() as u64;
    Ok(Call::PutBlob { id, len })
}

impl Step {
    pub(crate) fn call(self, alloc: Global) -> Result<Call, Fail> {
        match self {
            Step::List(dir) => Ok(Call::List(dir)),
            Step::MakeDir(dir) => Ok(Call::MakeDir(dir)),
            Step::Get(name) => Ok(Call::Get(name.path()?)),
            Step::Put(name, text) => put(alloc, name, text),
            Step::Delete(name) => Ok(Call::Delete(name.path()?)),
            Step::GetBlob => Ok(Call::GetBlob(note()?)),
            Step::PutBlob(text) => put_blob(text),
        }
    }

    /// The bytes that travel beside it.
    pub(crate) fn blob(self, alloc: Global) -> Result<Bytes, AllocError> {
        match self {
            Step::PutBlob(text) => bytes(alloc, text),
            _ => Ok(Bytes::new(alloc)),
        }
    }
}
