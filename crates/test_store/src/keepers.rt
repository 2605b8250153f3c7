ghost use Rattle.std.specs.Prelude.{IfOk};
ghost use Rattle.item_kinds.specs.Made.{IsLine};
ghost use Rattle.local_store.specs.Sound.{IsAllowed};

use crate::named::{NOW, bytes, id, line, plain_mime};
use jop_base::{Copied, Id, let_go};
use keeper::{Keeper, KeeperErr};
use keeper_records::MemKeeper;
use local_changes::new_resource;
use local_store::{Change, Tables};
use std::alloc::{AllocError, Global};
use std::process::Abort;
use std::test::Fail;

/// Names the client `c..`. Whether that is answered so, and the client is known then.
fn is_named(alloc: Global, keeper: &mut MemKeeper, answer: Result<(), KeeperErr>) -> bool {
    let client = id(b'c');
    let change = Change::Named(client);
    let came = keeper.commit(alloc, &change);
    let_go(change);
    came == answer && keeper.tables().client == Some(client)
}

/// Who the client is, in a copy of what a keeper reads.
fn client_read(alloc: Global, keeper: &mut MemKeeper) -> Result<Option<Id>, KeeperErr> {
    let tables = keeper.read(alloc)?;
    let copy = tables.copy(alloc);
    let_go(tables);
    let copy = copy?;
    let client = copy.client;
    let_go(copy);
    Ok(client)
}

/// Of three calls the second fails.
fn fail_once(rt: &impl Abort, alloc: Global, keeper: &mut MemKeeper) -> Result<(), Fail> {
    keeper.fail(2)?;
    for answer in [Ok(()), Err(KeeperErr::Fault), Ok(())] {
        assert!(rt; is_named(alloc, keeper, answer));
    }
    assert!(rt; keeper.faults() == 1);
    assert!(rt; client_read(alloc, keeper) == Ok(Some(id(b'c'))));
    Ok(())
}

#[test]
fn a_keeper_fails_when_it_is_planned(rt: HostRuntime) -> Result<(), Fail> {
    let mut keeper = MemKeeper::new(rt.alloc());
    fail_once(&rt, rt.alloc(), &mut keeper)
}

/// A resource `d..` of this name.
fn resource(alloc: Global, name: &str) -> Result<Change, AllocError>
    requires { IsLine name.now }
    ensures { IfOk result (λ change. IsAllowed change) }
{
    let name = line(alloc, name)?;
    let mime = plain_mime(alloc)?;
    new_resource(alloc, id(b'd'), name, mime, 7, NOW)
}

fn save_name<K: Keeper>(alloc: Global, keeper: &mut K, name: &str) -> Result<(), KeeperErr>
    requires { IsLine name.now }
{
    let made = resource(alloc, name)?;
    let came = keeper.commit(alloc, &made);
    let_go(made);
    came
}

fn save_bytes<K: Keeper>(alloc: Global, keeper: &mut K, content: &[u8]) -> Result<(), KeeperErr> {
    let bytes = bytes(alloc, content)?;
    keeper.save_blob(alloc, &id(b'd'), &bytes)
}

fn has_bytes<K: Keeper>(alloc: Global, keeper: &mut K, content: &[u8]) -> Result<bool, KeeperErr> {
    match keeper.load_blob(alloc, &id(b'd'))? {
        Some(bytes) => Ok(bytes.as_slice() == content),
        None => Ok(false),
    }
}

fn is_titled(tables: &Tables, title: &str) -> bool {
    match tables.rows.at(&id(b'd')) {
        Some(row) => match &row.content.item().title {
            Some(text) => text.as_str() == title,
            None => false,
        },
        None => false,
    }
}

fn has_name<K: Keeper>(alloc: Global, keeper: &mut K, name: &str) -> Result<bool, KeeperErr> {
    let tables = keeper.read(alloc)?;
    Ok(is_titled(&tables, name))
}

/// Saves bytes of a resource twice, and then its name. Whether it is kept with its name and its last bytes.
fn is_kept<K: Keeper>(alloc: Global, keeper: &mut K) -> Result<bool, KeeperErr> {
    save_bytes(alloc, keeper, b"one")?;
    save_bytes(alloc, keeper, b"another")?;
    save_name(alloc, keeper, "list.txt")?;
    Ok(has_bytes(alloc, keeper, b"another")? && has_name(alloc, keeper, "list.txt")?)
}

fn boxed(alloc: Global) -> Result<Box<MemKeeper>, AllocError> {
    Ok(Box::new(alloc, MemKeeper::new(alloc))?)
}

#[test]
fn a_resource_is_kept_with_its_name_and_last_bytes(rt: HostRuntime) -> Result<(), Fail> {
    let alloc = rt.alloc();
    let mut keeper: Box<dyn Keeper> = boxed(alloc)?;
    assert!(rt; is_kept(alloc, &mut keeper) == Ok(true));
    Ok(())
}
