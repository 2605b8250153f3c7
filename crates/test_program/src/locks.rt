use jop_base::{Id, LockKind, LockName};
use std::test::Fail;

pub(crate) const ONE: &str = "11111111111111111111111111111111";

pub(crate) const TWO: &str = "22222222222222222222222222222222";

/// The id of a client.
pub(crate) fn id(client: &str) -> Result<Id, Fail> {
    Ok(Id::read(client.as_bytes()).ok_or("an id")?)
}

/// The name of a lock of this kind and client.
pub(crate) fn lock_name(kind: LockKind, client: &str) -> Result<LockName, Fail> {
    Ok(LockName {
        kind,
        client_type: 3,
        client: id(client)?,
    })
}
