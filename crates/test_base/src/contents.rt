use crate::asking::ask;
use crate::folder::{empty_folder, path_in, target_over};
use crate::past::{Deed, NOTE};
use crate::spy::{Reads, Spy};
use crate::step::{Name, Step, client};
use jop_base::{Bytes, Path, Text};
use jop_target::{Call, FILE_LIMIT, Reply, Target};
use std::alloc::Global;
use std::fs;
use std::test::Fail;
use target_files::FolderTarget;

/// So many bytes that don't repeat within a piece of any power of two.
fn bytes_of(alloc: Global, len: u64) -> Result<Vec<u8>, Fail> {
    let mut bytes = Vec::new(alloc);
    for at in 0..len {
        bytes.push((at % 251) as u8)?;
    }
    Ok(bytes)
}

/// What a get of `info.json` hands out. Nothing where there is none.
fn content_of_info<T: Target>(alloc: Global, target: &mut T) -> Result<Bytes, Fail> {
    let mut blob = Bytes::new(alloc);
    match target.call(alloc, &Call::Get(Path::Info), &mut blob)? {
        Reply::Got { content, .. } => Ok(content),
        _ => Ok(Bytes::new(alloc)),
    }
}

fn put_info<T: Target>(alloc: Global, target: &mut T, len: u64) -> Result<(), Fail> {
    let put = Call::Put(Path::Info, Bytes::from_vec(bytes_of(alloc, len)?));
    let mut none = Bytes::new(alloc);
    target.call(alloc, &put, &mut none)?;
    Ok(())
}

fn has_info<T: Target>(alloc: Global, target: &mut T, len: u64) -> Result<bool, Fail> {
    let got = content_of_info(alloc, target)?;
    let wanted = bytes_of(alloc, len)?;
    Ok(got.as_slice() == wanted.as_slice())
}

/// Whether so many bytes are got as they were put.
fn keeps(rt: &HostRuntime, folder: &str, len: u64) -> Result<bool, Fail> {
    let mut target = target_over(rt, folder)?;
    put_info(rt.alloc(), &mut target, len)?;
    has_info(rt.alloc(), &mut target, len)
}

#[test]
fn what_was_put_is_got_whole(rt: HostRuntime) -> Result<(), Fail> {
    let folder = empty_folder(&rt)?;
    for len in [1, 65_536, 65_537, FILE_LIMIT] {
        assert!(rt; keeps(&rt, folder.as_str(), len)?);
    }
    fs::remove_dir_all(&rt, folder.as_str())?;
    Ok(())
}

/// Reads of a file of two bytes, and what a get of it is answered.
const READS: [(Reads, &str); 4] = [
    (
        Reads {
            piece: 1,
            in_all: 2,
            fails: true,
        },
        "got [104, 105]\n",
    ),
    (
        Reads {
            piece: 1,
            in_all: 1,
            fails: true,
        },
        "failed\n",
    ),
    (
        Reads {
            piece: 1,
            in_all: 1,
            fails: false,
        },
        "failed\n",
    ),
    (
        Reads {
            piece: 2,
            in_all: 0,
            fails: true,
        },
        "failed\n",
    ),
];

/// What a get of the note is answered by a target whose files are read so.
fn answer_by(rt: &HostRuntime, folder: &str, log: &str, reads: Reads) -> Result<String, Fail> {
    let spy = Spy {
        real: rt,
        folder: "",
        log,
        reads,
    };
    let temp = client()?;
    let mut target = FolderTarget::new(spy, Text::of(rt.alloc(), folder)?, temp);
    ask(rt.alloc(), &mut target, Step::Get(Name::Note))
}

/// Whether it is this.
fn is_answered(rt: &HostRuntime, folder: &str, reads: Reads, wanted: &str) -> Result<bool, Fail> {
    let log = path_in(rt.alloc(), folder, "/log")?;
    let said = answer_by(rt, folder, log.as_str(), reads)?;
    Ok(said.as_str() == wanted)
}

#[test]
fn a_file_that_cannot_be_read_whole_is_a_fault(rt: HostRuntime) -> Result<(), Fail> {
    let folder = empty_folder(&rt)?;
    Deed::Write("hi").act_in(&rt, folder.as_str(), NOTE)?;
    for (reads, wanted) in READS {
        assert!(rt; is_answered(&rt, folder.as_str(), reads, wanted)?);
    }
    fs::remove_dir_all(&rt, folder.as_str())?;
    Ok(())
}
