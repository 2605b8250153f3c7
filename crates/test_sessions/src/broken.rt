use jop_base::{Bytes, Id, LockKind, LockName, Path};
use jop_target::{Call, Content, Diary, MemTarget, Target, Tree};
use std::alloc::Global;
use std::test::Fail;
use sync_info::{Info, read_info, write_info};
use sync_run::upgrade_on;

const ONE: &[u8] = b"11111111111111111111111111111111";

const TWO: &[u8] = b"22222222222222222222222222222222";

/// What happens between a client's reading and its write.
#[derive(Clone, Copy)]
enum Meanwhile {
    Nothing,
    /// The client of this id upgrades the target, at the first try at which no lock is in its way.
    Upgrades(&'static [u8]),
    /// Someone puts `info.json` at this version.
    Puts(u64),
    /// Someone deletes it.
    Deletes,
}

/// A client reads the version of a target, under an exclusive lock or without one; something
/// happens; and it writes, while the target has a version. An upgrade takes so many tries.
struct Row {
    what: &'static str,
    read: u64,
    locked: bool,
    meanwhile: Meanwhile,
    tries: u64,
    written_at: u64,
}

const ROWS: [Row; 6] = [
    Row {
        what: "an upgrader reads before it takes its lock",
        read: 1,
        locked: false,
        meanwhile: Meanwhile::Upgrades(TWO),
        tries: 1,
        written_at: 3,
    },
    Row {
        what: "a synchroniser writes without having been told version 3",
        read: 1,
        locked: false,
        meanwhile: Meanwhile::Nothing,
        tries: 0,
        written_at: 1,
    },
    Row {
        what: "another synchroniser puts an info of another version",
        read: 3,
        locked: false,
        meanwhile: Meanwhile::Puts(2),
        tries: 0,
        written_at: 2,
    },
    Row {
        what: "another synchroniser deletes the info",
        read: 3,
        locked: false,
        meanwhile: Meanwhile::Deletes,
        tries: 0,
        written_at: 1,
    },
    Row {
        what: "an upgrader writes after the end of its lease",
        read: 1,
        locked: true,
        meanwhile: Meanwhile::Upgrades(TWO),
        tries: 5,
        written_at: 3,
    },
    Row {
        what: "two upgraders of one id run at once",
        read: 1,
        locked: true,
        meanwhile: Meanwhile::Upgrades(ONE),
        tries: 1,
        written_at: 3,
    },
];

fn id(digits: &[u8]) -> Result<Id, Fail> {
    Ok(Id::read(digits).ok_or("an id")?)
}

fn content_at<'a>(tree: &'a Tree, path: &Path) -> Option<&'a [u8]> {
    match &tree.files.at(path)?.content {
        Content::Whole(bytes) => Some(bytes.as_slice()),
        Content::Sized(_) => None,
    }
}

fn version_in(alloc: Global, info: &[u8]) -> Result<u64, Fail> {
    let info = read_info(alloc, info).ok().ok_or("an info")?;
    Ok(info.version)
}

/// The version that a target has, 1 or 0 if `version.txt` stands there alone or doesn't.
fn version(alloc: Global, tree: &Tree) -> Result<u64, Fail> {
    match content_at(tree, &Path::Info) {
        Some(info) => version_in(alloc, info),
        None => Ok(u64::from(content_at(tree, &Path::OldVersion).is_some())),
    }
}

fn put_info(alloc: Global, target: &mut MemTarget, version: u64) -> Result<(), Fail> {
    let info = Info::new(alloc, version);
    let text = write_info(alloc, &info)?;
    target.place(Path::Info, text, 0)?;
    Ok(())
}

fn delete_info(alloc: Global, target: &mut MemTarget) -> Result<(), Fail> {
    let mut blob = Bytes::new(alloc);
    target.call(alloc, &Call::Delete(Path::Info), &mut blob)?;
    Ok(())
}

/// Makes a target one of this version.
fn open(alloc: Global, target: &mut MemTarget, version: u64) -> Result<(), Fail> {
    let text = Bytes::from_vec(b"1".to_vec(alloc)?);
    target.place(Path::OldVersion, text, 0)?;
    if version > 1 {
        put_info(alloc, target, version)?;
    }
    Ok(())
}

fn lock(alloc: Global, target: &mut MemTarget) -> Result<(), Fail> {
    let own = LockName {
        kind: LockKind::Exclusive,
        client_type: 3,
        client: id(ONE)?,
    };
    target.place(Path::Lock(own), Bytes::new(alloc), 0)?;
    Ok(())
}

fn is_upgraded(alloc: Global, target: &mut MemTarget, client: &Id, diary: &mut Diary) -> bool {
    upgrade_on(alloc, target, client, diary).is_ok()
}

/// The number of tries that an upgrade takes, ten at most.
fn upgrade(alloc: Global, target: &mut MemTarget, digits: &[u8]) -> Result<u64, Fail> {
    let client = id(digits)?;
    let mut diary = Diary::new(alloc);
    for tries in 1..11u64 {
        if is_upgraded(alloc, target, &client, &mut diary) {
            return Ok(tries);
        }
    }
    Ok(11)
}

/// The number of tries that an upgrade takes that happens meanwhile, or 0.
fn act(alloc: Global, target: &mut MemTarget, meanwhile: Meanwhile) -> Result<u64, Fail> {
    match meanwhile {
        Meanwhile::Upgrades(digits) => return upgrade(alloc, target, digits),
        Meanwhile::Puts(version) => put_info(alloc, target, version)?,
        Meanwhile::Deletes => delete_info(alloc, target)?,
        Meanwhile::Nothing => {}
    }
    Ok(0)
}

impl Row {
    /// Whether what was read, the tries, and the version at the write are these.
    fn is_played(&self, alloc: Global, target: &mut MemTarget) -> Result<bool, Fail> {
        open(alloc, target, self.read)?;
        if self.locked {
            lock(alloc, target)?;
        }
        let read = version(alloc, target.tree())?;
        let tries = act(alloc, target, self.meanwhile)?;
        let written_at = version(alloc, target.tree())?;
        Ok(read == self.read && tries == self.tries && written_at == self.written_at)
    }

    /// The same of a target whose calls are 20 seconds apart.
    fn comes_out(&self, alloc: Global) -> Result<bool, Fail> {
        let mut target = MemTarget::new(alloc, 0, 20_000);
        self.is_played(alloc, &mut target)
    }
}

#[test]
fn a_write_lands_on_another_version_without_a_premise(rt: HostRuntime) -> Result<(), Fail> {
    for row in &ROWS {
        assert!(rt; row.comes_out(rt.alloc())?, "{}", row.what);
    }
    Ok(())
}

/// Whether an upgrade that puts its last info first, and is stopped, hides the missing steps: the next
/// one finds version 3 and makes nothing of them.
fn is_hidden(alloc: Global, target: &mut MemTarget) -> Result<bool, Fail> {
    open(alloc, target, 1)?;
    put_info(alloc, target, 3)?;
    Ok(upgrade(alloc, target, TWO)? == 1 && target.tree().folders.len() == 1)
}

#[test]
fn an_info_that_is_put_first_hides_the_missing_steps(rt: HostRuntime) -> Result<(), Fail> {
    let mut target = MemTarget::new(rt.alloc(), 0, 20_000);
    assert!(rt; is_hidden(rt.alloc(), &mut target)?);
    Ok(())
}
