ghost use Rattle.std.specs.Prelude.{◌≤◌};
ghost use Rattle.jop_base.specs.Times.{last_time};

use crate::broken_off::BrokenOff;
use crate::step::id_of;
use jop_base::{Bytes, Path};
use jop_target::{Content, MemTarget, Tree};
use std::alloc::{AllocError, Global};

/// An id, and the text of a file.
pub type Text = (&'static str, &'static str);

pub(crate) fn bytes_of(alloc: Global, text: &str) -> Result<Bytes, AllocError> {
    Ok(Bytes::from_vec(text.as_bytes().to_vec(alloc)?))
}

fn place(alloc: Global, target: &mut MemTarget, file: &Text, stamp: u64) -> Result<(), BrokenOff>
    requires { stamp ≤ last_time }
{
    target.place(Path::Item(id_of(file.0)?), bytes_of(alloc, file.1)?, stamp)?;
    Ok(())
}

/// A target that holds these items' files, written at this time, all in milliseconds since 1970.
/// Its first call has the moment `start`, and each later one is as many milliseconds later as
/// `step` says.
pub fn target_at(
    alloc: Global,
    start: u64,
    step: u64,
    files: &[Text],
    stamp: u64,
) -> Result<MemTarget, BrokenOff>
    requires { stamp ≤ last_time }
{
    let mut target = MemTarget::new(alloc, start, step);
    for file in files {
        place(alloc, &mut target, file, stamp)?;
    }
    Ok(target)
}

/// A target that holds these items' files, written long before its first call.
pub fn target_of(alloc: Global, files: &[Text]) -> Result<MemTarget, BrokenOff> {
    target_at(alloc, 1000, 1, files, 1)
}

/// Sets the bytes of a resource.
pub fn place_bytes(target: &mut MemTarget, digits: &str, bytes: Bytes) -> Result<(), BrokenOff> {
    target.place(Path::Blob(id_of(digits)?), bytes, 1)?;
    Ok(())
}

/// Whether the item's file holds exactly this, or, if that is none, isn't there.
pub fn holds(tree: &Tree, digits: &str, text: Option<&str>) -> Result<bool, BrokenOff> {
    let path = Path::Item(id_of(digits)?);
    match (tree.files.at(&path), text) {
        (Some(file), Some(text)) => Ok(is_text(&file.content, text)),
        (None, None) => Ok(true),
        _ => Ok(false),
    }
}

fn is_text(content: &Content, text: &str) -> bool {
    match content {
        Content::Whole(bytes) => bytes.as_slice() == text.as_bytes(),
        Content::Sized(_) => false,
    }
}

/// How many bytes of the resource there are. None if they aren't there.
pub fn size_of(tree: &Tree, digits: &str) -> Result<Option<u64>, BrokenOff> {
    let path = Path::Blob(id_of(digits)?);
    match tree.files.at(&path) {
        Some(file) => match &file.content {
            Content::Whole(bytes) => Ok(Some(bytes.len() as u64)),
            Content::Sized(len) => Ok(Some(*len)),
        },
        None => Ok(None),
    }
}
