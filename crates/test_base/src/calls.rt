use crate::asking::{ask_all, reply_to};
use crate::folder::{empty_folder, target_over};
use crate::step::{Name, Step};
use jop_base::{Bytes, Dir};
use jop_target::{MemTarget, Reply, Target};
use std::alloc::Global;
use std::fs;
use std::test::Fail;

/// Each kind of call.
const STEPS: [Step; 17] = [
    Step::List(Dir::Locks),
    Step::MakeDir(Dir::Locks),
    Step::MakeDir(Dir::Locks),
    Step::Put(Name::Lock, ""),
    Step::List(Dir::Locks),
    Step::Get(Name::Note),
    Step::Put(Name::Note, "hi"),
    Step::Get(Name::Note),
    Step::List(Dir::Root),
    Step::Delete(Name::Note),
    Step::Delete(Name::Note),
    Step::GetBlob,
    Step::PutBlob("blob"),
    Step::GetBlob,
    Step::List(Dir::Resources),
    Step::Delete(Name::Blob),
    Step::List(Dir::Temp),
];

const SAID: &str = "listed
done
done
done
listed locks/1_3_11111111111111111111111111111111.json
absent
done
got [104, 105]
listed 22222222222222222222222222222222.md
done
absent
absent []
done
got blob 4 [98, 108, 111, 98]
listed .resource/22222222222222222222222222222222
done
listed
";

fn boxed_over(rt: &HostRuntime, folder: &str) -> Result<Box<dyn Target>, Fail> {
    let target = target_over(rt, folder)?;
    Ok(Box::new(rt.alloc(), target)?)
}

fn said_over(rt: &HostRuntime, folder: &str) -> Result<String, Fail> {
    let mut target = boxed_over(rt, folder)?;
    ask_all(rt.alloc(), &mut target, STEPS.as_slice())
}

fn said_by_a_folder(rt: &HostRuntime) -> Result<String, Fail> {
    let folder = empty_folder(rt)?;
    let said = said_over(rt, folder.as_str())?;
    fs::remove_dir_all(rt, folder.as_str())?;
    Ok(said)
}

fn said_in_memory(alloc: Global) -> Result<String, Fail> {
    let mut target = MemTarget::new(alloc, 0, 1);
    ask_all(alloc, &mut target, STEPS.as_slice())
}

#[test]
fn each_call_is_answered_as_in_memory(rt: HostRuntime) -> Result<(), Fail> {
    assert_eq!(rt; said_by_a_folder(&rt)?.as_str(), SAID);
    assert_eq!(rt; said_in_memory(rt.alloc())?.as_str(), SAID);
    Ok(())
}

/// The moment of a put of `info.json`.
fn moment_of_put<T: Target>(alloc: Global, target: &mut T) -> Result<u64, Fail> {
    let mut none = Bytes::new(alloc);
    match reply_to(alloc, target, Step::Put(Name::Info, ""), &mut none)? {
        Reply::Done { now } => Ok(now),
        _ => Err(Fail::new("not put")),
    }
}

/// The moment of a listing of the root, and that of the one file which it shows.
fn moments_of_listing<T: Target>(alloc: Global, target: &mut T) -> Result<(u64, u64), Fail> {
    let mut none = Bytes::new(alloc);
    match reply_to(alloc, target, Step::List(Dir::Root), &mut none)? {
        Reply::Listed(listing) => match listing.entries.as_slice() {
            [entry] => Ok((listing.now, entry.stamp)),
            _ => Err(Fail::new("not one file")),
        },
        _ => Err(Fail::new("not listed")),
    }
}

/// Whether a file that is put is listed with the moment of its put, no earlier than November 2023.
fn lists_the_time(rt: &HostRuntime, folder: &str) -> Result<bool, Fail> {
    let mut target = target_over(rt, folder)?;
    let put = moment_of_put(rt.alloc(), &mut target)?;
    let (now, stamp) = moments_of_listing(rt.alloc(), &mut target)?;
    Ok(stamp == put && put > 1_700_000_000_000 && now >= put)
}

#[test]
fn a_listing_has_the_time_of_a_put(rt: HostRuntime) -> Result<(), Fail> {
    let folder = empty_folder(&rt)?;
    assert!(rt; lists_the_time(&rt, folder.as_str())?);
    fs::remove_dir_all(&rt, folder.as_str())?;
    Ok(())
}
