ghost use Rattle.std.specs.Prelude.{◌≡◌, IfOk};
ghost use Rattle.std.specs.Option.{option_copied};
ghost use Rattle.jop_target.specs.Store.{entries_in, got, got_blob, got_content, got_size, deleted};
ghost use Rattle.jop_target.specs.declared.tree.Content.TheVariants.{Whole};

use crate::limits::BLOB_LIMIT;
use crate::reply::{Entry, Reply};
use crate::tree::{Content, File};
use jop_base::{Bytes, Copied, Dir, Seq};
use std::alloc::{AllocError, Global};

/// The files of a folder.
#[tactic(auto, unfolding(crate::specs::Store::entries_in))]
pub(crate) fn entries_in(alloc: Global, files: &[File], dir: Dir) -> Result<Seq<Entry>, AllocError>
    ensures { IfOk result (λ entries. entries ≡ entries_in files.now dir) }
{
    let mut entries = Seq::new(alloc);
    for file in files {
        if file.path.dir() == dir {
            entries.push(Entry {
                path: file.path,
                stamp: file.stamp,
            })?;
        }
    }
    Ok(entries)
}

/// What a file holds, if it is there.
pub(crate) fn got(
    alloc: Global,
    file: Option<&File>,
    limit: u64,
    now: u64,
) -> Result<Reply, AllocError>
    ensures { IfOk result (λ reply. reply ≡ got now limit (option_copied file.entry)) }
{
    match file {
        None => Ok(Reply::Absent { now }),
        Some(file) => got_content(alloc, &file.content, limit, now),
    }
}

fn got_content(alloc: Global, content: &Content, limit: u64, now: u64) -> Result<Reply, AllocError>
    ensures { IfOk result (λ reply. reply ≡ got_content now limit content.now) }
{
    match content {
        Content::Sized(len) => Ok(Reply::TooLarge { len: *len }),
        Content::Whole(bytes) => got_whole(alloc, bytes, limit, now),
    }
}

/// These bytes, unless they are too many.
fn got_whole(alloc: Global, bytes: &Bytes, limit: u64, now: u64) -> Result<Reply, AllocError>
    ensures { IfOk result (λ reply. reply ≡ got_content now limit (Whole bytes.now)) }
{
    let len = bytes.len() as u64;
    if limit < len {
        return Ok(Reply::TooLarge { len });
    }
    let content = bytes.copy(alloc)?;
    Ok(Reply::Got { now, content })
}

/// How long a blob is, if it is there.
pub(crate) fn got_blob(file: Option<&File>, now: u64) -> Reply
    ensures { result ≡ got_blob now BLOB_LIMIT (option_copied file.entry) }
{
    match file {
        None => Reply::Absent { now },
        Some(file) => got_size(&file.content, now),
    }
}

fn got_size(content: &Content, now: u64) -> Reply
    ensures { result ≡ got_size now BLOB_LIMIT content.now }
{
    match content {
        Content::Sized(len) if *len <= BLOB_LIMIT => Reply::GotBlob { now, len: *len },
        Content::Sized(len) => Reply::TooLarge { len: *len },
        Content::Whole(bytes) => Reply::TooLarge {
            len: bytes.len() as u64,
        },
    }
}

/// Whether there is a file to take out.
pub(crate) fn deleted(file: Option<&File>, now: u64) -> Reply
    ensures { result ≡ deleted now (option_copied file.entry) }
{
    match file {
        None => Reply::Absent { now },
        Some(_) => Reply::Done { now },
    }
}
