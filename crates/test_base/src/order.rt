use crate::asking::ask;
use crate::folder::{empty_folder, path_in};
use crate::past::Deed;
use crate::spy::{Reads, Spy};
use crate::step::{Name, Step, client};
use jop_base::{Dir, Text};
use std::alloc::Global;
use std::test::Fail;
use std::thread::sleep;
use std::time::Duration;
use std::{fs, io};
use target_files::FolderTarget;

/// A file is read at once.
const AT_ONCE: Reads = Reads {
    piece: 1 << 30,
    in_all: 1 << 30,
    fails: false,
};

/// What each call asks of the system, in this order. Its moment is taken first, by a clock that the first one makes,
/// or, where it puts a file, when that was written last: a file is flushed before it has its name, then its last byte
/// is written again, and the folder flushed.
const ORDER: &str = "put an item
look at /temp
look past links at /temp/
make /temp/11111111111111111111111111111111.tmp
look at /22222222222222222222222222222222.md
write
flush
open /
share a turn
rename to /22222222222222222222222222222222.md
go back
write
its time
open /
flush
get an item
look at /temp
look past links at /temp/
make /temp/11111111111111111111111111111111.clock.tmp
its time
remove /temp/11111111111111111111111111111111.clock.tmp
another handle
look at /22222222222222222222222222222222.md
open /22222222222222222222222222222222.md
its time
read
list the root
open /
take a turn alone
write
its time
write
its time
list /
list /
look past links at /
look at /22222222222222222222222222222222.md
delete an item
write
its time
look at /22222222222222222222222222222222.md
remove /22222222222222222222222222222222.md
open /
flush
put a lock
look at /locks
look past links at /locks/
look at /locks
look at /locks/1_3_11111111111111111111111111111111.json
make /locks/1_3_11111111111111111111111111111111.json
cut
write
flush
its time
look at /locks
open /locks/
flush
put a lock again
look at /locks
look past links at /locks/
look at /locks
look at /locks/1_3_11111111111111111111111111111111.json
open /locks/1_3_11111111111111111111111111111111.json
its time
make /locks/1_3_11111111111111111111111111111111.json
look at /locks/1_3_11111111111111111111111111111111.json
cut
write
flush
its time
look at /locks
open /locks/
flush
put a blob
look at /.resource
look past links at /.resource/
look at /.resource
look at /temp
look past links at /temp/
look at /.resource
make /temp/11111111111111111111111111111111.tmp
look at /.resource/22222222222222222222222222222222
write
flush
open /.resource/
share a turn
rename to /.resource/22222222222222222222222222222222
go back
write
its time
look at /.resource
open /.resource/
flush
";

const STEPS: [(&str, Step); 7] = [
    ("put an item", Step::Put(Name::Note, "hi")),
    ("get an item", Step::Get(Name::Note)),
    ("list the root", Step::List(Dir::Root)),
    ("delete an item", Step::Delete(Name::Note)),
    ("put a lock", Step::Put(Name::Lock, "{}")),
    ("put a lock again", Step::Put(Name::Lock, "{}")),
    ("put a blob", Step::PutBlob("blob")),
];

/// Takes each step, with its name in the log before what it asks. The clock of any file system goes on before each, so
/// that a folder which is listed is at rest.
fn take_steps<'a>(
    alloc: Global,
    spy: &Spy<'a>,
    target: &mut FolderTarget<Spy<'a>>,
) -> Result<(), Fail> {
    for (name, step) in STEPS.as_slice() {
        sleep(spy.real, Duration::from_millis(20));
        spy.tell(name, "")?;
        ask(alloc, target, *step)?;
    }
    Ok(())
}

/// Takes the steps over a folder, of which a spy tells to the log.
fn take_steps_in(rt: &HostRuntime, folder: &str, log: &str) -> Result<(), Fail> {
    let spy = Spy {
        real: rt,
        folder,
        log,
        reads: AT_ONCE,
    };
    let temp = client()?;
    let mut target = FolderTarget::new(spy, Text::of(rt.alloc(), folder)?, temp);
    take_steps(rt.alloc(), &spy, &mut target)
}

fn make_folders(rt: &HostRuntime, folder: &str) -> io::Result<()> {
    for name in [
        "/target",
        "/target/temp",
        "/target/locks",
        "/target/.resource",
    ] {
        Deed::MakeDir.act_in(rt, folder, name)?;
    }
    Ok(())
}

/// What is asked of the system below a folder, a line each.
fn asked_in(rt: &HostRuntime, folder: &str) -> Result<String, Fail> {
    make_folders(rt, folder)?;
    let target = path_in(rt.alloc(), folder, "/target")?;
    let log = path_in(rt.alloc(), folder, "/log")?;
    take_steps_in(rt, target.as_str(), log.as_str())?;
    Ok(fs::read_to_string(rt, log.as_str())?)
}

fn asked(rt: &HostRuntime) -> Result<String, Fail> {
    let folder = empty_folder(rt)?;
    let asked = asked_in(rt, folder.as_str())?;
    fs::remove_dir_all(rt, folder.as_str())?;
    Ok(asked)
}

#[test]
fn each_call_asks_the_system_in_this_order(rt: HostRuntime) -> Result<(), Fail> {
    assert_eq!(rt; asked(&rt)?.as_str(), ORDER);
    Ok(())
}
