ghost use Rattle.std.specs.Prelude.{◌≡◌, OnErr, OnOk, length, option_map};
ghost use Rattle.client.specs.Sites.{KeepsOr, NotesOr, AddsOr};
ghost use Rattle.keeper.specs.Keepers.{HasKeeperCause, IsOfKept, changed};
ghost use Rattle.local_store.specs.Sound.{IsAllowed, IsSound};
ghost use Rattle.std.specs.Prelude.{◌++◌, ◌∷◌, [], ◌≤◌};
ghost use Rattle.jop_target.specs.declared.event.Event.TheVariants.{Made};

use jop_base::let_go;
use jop_target::Diary;
use keeper::{Keeper, KeeperErr};
use local_store::{Change, Changes, Tables};
use std::alloc::{AllocError, Global};

/// Makes a change: keeps it, and writes it down in the diary by its number and in the list of changes.
/// A change that is refused is written down nowhere.
pub(crate) fn commit<K: Keeper>(
    alloc: Global,
    keeper: &mut K,
    diary: &mut Diary,
    made: &mut Changes,
    change: Change,
) -> Result<(), KeeperErr>
    requires { IsAllowed change }
    ensures kept { KeepsOr change (K.state keeper.old).kept result (K.state keeper.new).kept }
    ensures trail { NotesOr made.old.changes diary.old.events result diary.new.events }
    ensures made { AddsOr change made.old.changes result made.new.changes }
    ensures cause { HasKeeperCause (K.state keeper.old).faults result (K.state keeper.new).faults }
{
    let kept = match reserve(diary, made) {
        Ok(()) => keeper.commit(alloc, &change),
        Err(error) => Err(error.into()),
    };
    settle(diary, made, change, kept)
}

/// Makes a change to these tables, which are those that are kept, in the same way. The tables themselves stay as they
/// are.
pub(crate) fn commit_in<K: Keeper>(
    alloc: Global,
    keeper: &mut K,
    tables: &Tables,
    diary: &mut Diary,
    made: &mut Changes,
    change: Change,
) -> Result<(), KeeperErr>
    requires sound { IsSound tables.now }
    requires told { IsOfKept (K.state keeper.old).kept tables.now }
    requires allowed { IsAllowed change }
    ensures kept { KeepsOr change (K.state keeper.old).kept result (K.state keeper.new).kept }
    ensures trail { NotesOr made.old.changes diary.old.events result diary.new.events }
    ensures made { AddsOr change made.old.changes result made.new.changes }
    ensures cause { HasKeeperCause (K.state keeper.old).faults result (K.state keeper.new).faults }
{
    let kept = match reserve(diary, made) {
        Ok(()) => keeper.commit_in(alloc, tables, &change),
        Err(error) => Err(error.into()),
    };
    settle(diary, made, change, kept)
}

/// Makes room to write down a change.
fn reserve(diary: &mut Diary, made: &mut Changes) -> Result<(), AllocError>
    ensures same { (diary.new.events ≡ diary.old.events) × (made.new.changes ≡ made.old.changes) }
    ensures room { OnOk result ((1 ≤ diary.new.room) × (1 ≤ made.new.room)) }
{
    diary.reserve()?;
    made.reserve()
}

/// Writes down a change that was kept, and lets go one that wasn't.
fn settle(
    diary: &mut Diary,
    made: &mut Changes,
    change: Change,
    kept: Result<(), KeeperErr>,
) -> Result<(), KeeperErr>
    requires { OnOk kept ((1 ≤ diary.old.room) × (1 ≤ made.old.room)) }
    ensures same { result ≡ kept }
    ensures trail { NotesOr made.old.changes diary.old.events result diary.new.events }
    ensures made { AddsOr change made.old.changes result made.new.changes }
{
    match kept {
        Ok(()) => Ok(note(diary, made, change)),
        Err(error) => {
            let_go(change);
            Err(error)
        }
    }
}

/// Writes down a change that was kept.
fn note(diary: &mut Diary, made: &mut Changes, change: Change)
    requires { (1 ≤ diary.old.room) × (1 ≤ made.old.room) }
    ensures trail { diary.new.events ≡ diary.old.events ++ Made (length made.old.changes) ∷ [] }
    ensures made { made.new.changes ≡ made.old.changes ++ change ∷ [] }
{
    let _ = diary.made(made.len() as u64);
    let _ = made.push(change);
}
