ghost use Rattle.std.specs.Prelude.{◌≤◌};
ghost use Rattle.jop_base.specs.Times.{last_time};

use jop_base::{Bytes, Id, Path};
use jop_target::{Content, Diary, MemTarget, Target, Tree};
use std::alloc::{AllocError, Global};
use std::test::Fail;
use sync_run::{SessionErr, upgrade_on};

pub(crate) const ONE: &[u8] = b"11111111111111111111111111111111";

pub(crate) const TWO: &[u8] = b"22222222222222222222222222222222";

/// The `info.json` of a new target at version 3.
const NEW_INFO: &str = concat!(
    "{\"activeMasterKeyId\":{\"updatedTime\":0,\"value\":\"\"},",
    "\"e2ee\":{\"updatedTime\":0,\"value\":false},\"masterKeys\":[],\"version\":3}"
);

pub(crate) fn id(digits: &[u8]) -> Result<Id, Fail> {
    Ok(Id::read(digits).ok_or("an id")?)
}

fn bytes(alloc: Global, text: &[u8]) -> Result<Bytes, AllocError> {
    Ok(Bytes::from_vec(text.to_vec(alloc)?))
}

pub(crate) fn place(
    alloc: Global,
    target: &mut MemTarget,
    path: Path,
    text: &[u8],
    stamp: u64,
) -> Result<(), AllocError>
    requires { stamp ≤ last_time }
{
    let content = bytes(alloc, text)?;
    target.place(path, content, stamp)
}

/// What an upgrade comes to.
pub(crate) type Outcome = Result<u64, SessionErr>;

/// What an upgrade by the first client comes to.
pub(crate) fn upgrade_noted<T: Target>(
    alloc: Global,
    target: &mut T,
    diary: &mut Diary,
) -> Result<Outcome, Fail> {
    let client = id(ONE)?;
    Ok(upgrade_on(alloc, target, &client, diary))
}

/// The same, and the number of its events.
pub(crate) fn upgrade<T: Target>(alloc: Global, target: &mut T) -> Result<(Outcome, usize), Fail> {
    let mut diary = Diary::new(alloc);
    let outcome = upgrade_noted(alloc, target, &mut diary)?;
    Ok((outcome, diary.events().len()))
}

/// The version that it comes to, none if it ends otherwise, and the number of its events.
pub(crate) fn version_after<T: Target>(
    alloc: Global,
    target: &mut T,
) -> Result<(Option<u64>, usize), Fail> {
    let mut diary = Diary::new(alloc);
    let client = id(ONE)?;
    let version = upgrade_on(alloc, target, &client, &mut diary).ok();
    Ok((version, diary.events().len()))
}

fn is_whole(content: &Content, wanted: &[u8]) -> bool {
    match content {
        Content::Whole(bytes) => bytes.as_slice() == wanted,
        _ => false,
    }
}

/// Whether a file holds exactly this.
pub(crate) fn holds(tree: &Tree, path: Path, content: &[u8]) -> bool {
    for file in tree.files.as_slice() {
        if file.path == path && is_whole(&file.content, content) {
            return true;
        }
    }
    false
}

fn is_new(tree: &Tree) -> bool {
    holds(tree, Path::Info, NEW_INFO.as_bytes())
        && holds(tree, Path::OldVersion, b"2")
        && tree.files.len() == 2
        && tree.folders.len() == 4
}

/// Whether an upgrade of an empty target leaves one that is new.
fn is_set_up(alloc: Global) -> Result<bool, Fail> {
    let mut target = MemTarget::new(alloc, 0, 9000);
    let (version, _) = version_after(alloc, &mut target)?;
    Ok(version == Some(3) && is_new(target.tree()))
}

#[test]
fn sets_an_empty_target_up(rt: HostRuntime) -> Result<(), Fail> {
    assert!(rt; NEW_INFO.len() == 117);
    assert!(rt; is_set_up(rt.alloc())?);
    Ok(())
}
