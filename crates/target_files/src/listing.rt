ghost use Rattle.std.specs.Prelude.{◌↔◌, IfOk, IfSome, IsTrue, IsPermutation, IsSorted};
ghost use Rattle.jop_base.specs.Order.{path_cmp};
ghost use Rattle.jop_target.specs.Replies.{IsRising};
ghost use Rattle.target_files.specs.Listed.{IsEntryOf, AreEntriesOf};

use crate::moment::{changed_at, stamp_of};
use crate::trouble::{Trouble, found};
use jop_base::{Dir, Path, Seq};
use jop_target::Entry;
use std::alloc::{Allocator, Global};
use std::fs;
use std::fs::{DirEntry, Metadata};
use std::rt::Files;

/// The names in a folder. None where there is no such folder.
///
/// Whoever gives a file a name that another one had may hide both from a reading that goes on meanwhile. A reading that
/// begins when all of that has ended is whole; so the folder is opened anew for it, once a first name was read.
pub(crate) fn names_in<R: Files + Alloc + Clone + Drop>(
    rt: &R,
    alloc: Global,
    name: &str,
) -> Result<Option<Vec<DirEntry<R, R::A>>>, Trouble> {
    let Some(mut first) = found(fs::read_dir(rt, name))? else {
        return Ok(None);
    };
    first.next().transpose()?;
    let mut names = Vec::new(alloc);
    for name in fs::read_dir(rt, name)? {
        names.push(name?)?;
    }
    Ok(Some(names))
}

/// Whether no name came to a folder, went, or passed from one file to another since the clock of its file system told.
/// A folder that was changed just when it told isn't at rest yet.
pub(crate) fn is_at_rest<R: Files>(rt: &R, name: &str, told: &Metadata) -> Result<bool, Trouble> {
    Ok(changed_at(&fs::metadata(rt, name)?) < changed_at(told))
}

/// The files that bear names of a folder, in the order of their paths' texts, with their times, or this one where
/// that is earlier. A fault where the system names one twice.
pub(crate) fn entries_of<R: Files, A: Allocator>(
    alloc: Global,
    names: &[DirEntry<R, A>],
    dir: Dir,
    latest: u64,
) -> Result<Seq<Entry>, Trouble>
    ensures { IfOk result (λ entries. AreEntriesOf dir latest entries × IsRising entries) }
{
    let mut entries = Vec::new(alloc);
    for name in names {
        if let Some(entry) = read_entry(dir, name, latest)? {
            entries.push(entry)?;
        }
    }
    sort(&mut entries);
    if is_rising(&entries) {
        Ok(Seq::from_vec(entries))
    } else {
        Err(Trouble::Fault)
    }
}

/// The file that bears a name of the folder. None where the name is none of a target's, where there is no such file any
/// more, and where a link or a directory bears the name.
fn read_entry<R: Files, A: Allocator>(
    dir: Dir,
    name: &DirEntry<R, A>,
    latest: u64,
) -> Result<Option<Entry>, Trouble>
    ensures { IfOk result (λ entry. IfSome entry (IsEntryOf dir latest)) }
{
    let Some(path) = Path::read(dir, name.file_name().as_bytes()) else {
        return Ok(None);
    };
    match found(name.metadata())? {
        Some(metadata) if metadata.is_file() => Ok(Some(Entry {
            path,
            stamp: stamp_of(&metadata).min(latest),
        })),
        _ => Ok(None),
    }
}

/// Puts files in the order of their paths' texts.
fn sort(entries: &mut Vec<Entry>)
    ensures same { IsPermutation entries.old.items entries.new.items }
    ensures sorted { IsSorted (λ e f. path_cmp e.path f.path) entries.new.items }
{
    entries.sort_unstable_by(|a, b| a.path.compare(&b.path));
}

/// Whether each path's text stands before the next one's.
fn is_rising(entries: &[Entry]) -> bool
    ensures { IsTrue result ↔ IsRising entries.now }
{
    entries.is_sorted_by(|a, b| a.path.compare(&b.path).is_lt())
}
