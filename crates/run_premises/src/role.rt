ghost use Rattle.std.specs.Prelude.{◌≡◌};
ghost use Rattle.lease.specs.Locks.{is_own};
ghost use Rattle.lease.specs.Phase.{role_of, guarded_role, putting_role, deleting_role};
ghost use Rattle.run_premises.specs.Seen.{role_as};

use jop_base::{ClientId, Dir, LockKind, LockName, Path};
use jop_target::Call;
use lease::CLIENT_TYPE;

/// What a call is for a client.
#[derive(Clone, Copy, Debug, PartialEq, Eq)]
pub(crate) enum Role {
    MakesLocks,
    ListsLocks,
    PutsOwn(LockKind),
    DeletesOwn(LockKind),
    /// A call that has nothing to do with locks or temporary files, or makes the folder of these.
    Plain,
    /// A call on another's lock, or on a temporary file.
    Foreign,
}

/// Whether the lock is one of this program for this client.
pub(crate) fn is_own(name: &LockName, client: &ClientId) -> bool
    ensures { result ≡ is_own client.now name.now }
{
    name.client_type == CLIENT_TYPE && name.client == *client
}

fn guarded_role(path: &Path) -> Role
    ensures { role_as result ≡ guarded_role path.now }
{
    if path.is_guarded() {
        Role::Plain
    } else {
        Role::Foreign
    }
}

fn putting_role(client: &ClientId, path: &Path) -> Role
    ensures { role_as result ≡ putting_role client.now path.now }
{
    match path {
        Path::Lock(name) => {
            if is_own(name, client) {
                Role::PutsOwn(name.kind)
            } else {
                Role::Foreign
            }
        }
        _ => guarded_role(path),
    }
}

fn deleting_role(client: &ClientId, path: &Path) -> Role
    ensures { role_as result ≡ deleting_role client.now path.now }
{
    match path {
        Path::Lock(name) => {
            if is_own(name, client) {
                Role::DeletesOwn(name.kind)
            } else {
                Role::Foreign
            }
        }
        _ => guarded_role(path),
    }
}

/// What a call is for this client.
pub(crate) fn role_of(client: &ClientId, call: &Call) -> Role
    ensures { role_as result ≡ role_of client.now call.now }
{
    match call {
        Call::List(Dir::Locks) => Role::ListsLocks,
        Call::List(Dir::Temp) => Role::Foreign,
        Call::List(_) => Role::Plain,
        Call::Get(path) => guarded_role(path),
        Call::Put(path, _) => putting_role(client, path),
        Call::Delete(path) => deleting_role(client, path),
        Call::MakeDir(Dir::Locks) => Role::MakesLocks,
        Call::MakeDir(_) => Role::Plain,
        Call::GetBlob(_) => Role::Plain,
        Call::PutBlob { id: _, len: _ } => Role::Plain,
    }
}
