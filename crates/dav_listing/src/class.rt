ghost use Rattle.std.specs.Prelude.{◌≡◌, IfOk};
ghost use Rattle.dav_listing.specs.Listings.{IsBareClass, IsClass, IsClassBelow, IsNamedClass, IsPathClass, IsUnnamedClass, file_class, has_slash, is_own_path, own_class};

use crate::href::{folded, path_of, rest_after};
use crate::member::{Member, Props};
use jop_base::{Dir, Path};
use std::alloc::{AllocError, Global};

/// What a resource is to the folder that is listed.
#[derive(Clone, Copy, Debug, PartialEq, Eq)]
pub enum Class {
    /// The folder itself.
    Itself,
    /// A file of it, and when that was written, in milliseconds since 1970.
    File(Path, u64),
    /// What has a name that no file of the program has.
    Foreign,
    /// What no listing shows: it lies elsewhere, or something of it isn't told.
    Wrong,
}

fn has_slash(text: &[u8]) -> bool
    ensures { result ≡ has_slash text.now }
{
    text.iter().any(|byte| *byte == b'/')
}

/// Whether a path is the folder's own, with its last slash or without.
fn is_own_path(folder: &[u8], path: &[u8]) -> bool
    ensures { result ≡ is_own_path folder.now path.now }
{
    path == folder || path == &folder[..folder.len().saturating_sub(1)]
}

fn own_class(props: Props) -> Class
    ensures { result ≡ own_class props.folder }
{
    match props.folder {
        Some(true) => Class::Itself,
        _ => Class::Wrong,
    }
}

fn file_class(path: Path, slash: bool, props: Props) -> Class
    ensures { result ≡ file_class path slash props }
{
    if slash {
        return Class::Wrong;
    }
    match props.folder {
        Some(false) => match props.stamp {
            Some(stamp) => Class::File(path, stamp),
            None => Class::Wrong,
        },
        _ => Class::Wrong,
    }
}

/// What a name is that is no file's.
fn unnamed_class(alloc: Global, dir: Dir, name: &[u8]) -> Result<Class, AllocError>
    ensures { IfOk result (IsUnnamedClass dir name.now) }
{
    let name = folded(alloc, name)?;
    match Path::read(dir, name.as_slice()) {
        Some(_) => Ok(Class::Wrong),
        None => Ok(Class::Foreign),
    }
}

fn bare_class(
    alloc: Global,
    dir: Dir,
    name: &[u8],
    slash: bool,
    props: Props,
) -> Result<Class, AllocError>
    ensures { IfOk result (IsBareClass dir name.now slash props) }
{
    match Path::read(dir, name) {
        Some(path) => Ok(file_class(path, slash, props)),
        None => unnamed_class(alloc, dir, name),
    }
}

fn named_class(
    alloc: Global,
    dir: Dir,
    name: &[u8],
    slash: bool,
    props: Props,
) -> Result<Class, AllocError>
    ensures { IfOk result (IsNamedClass dir name.now slash props) }
{
    if name.is_empty() || has_slash(name) {
        return Ok(Class::Wrong);
    }
    bare_class(alloc, dir, name, slash, props)
}

fn class_below(alloc: Global, dir: Dir, name: &[u8], props: Props) -> Result<Class, AllocError>
    ensures { IfOk result (IsClassBelow dir name.now props) }
{
    let (bare, end) = name.split_at(name.len().saturating_sub(1));
    if end == b"/".as_slice() {
        named_class(alloc, dir, bare, true, props)
    } else {
        named_class(alloc, dir, name, false, props)
    }
}

fn path_class(
    alloc: Global,
    dir: Dir,
    folder: &[u8],
    path: &[u8],
    props: Props,
) -> Result<Class, AllocError>
    ensures { IfOk result (IsPathClass dir folder.now path.now props) }
{
    if is_own_path(folder, path) {
        return Ok(own_class(props));
    }
    match rest_after(folder, path) {
        None => Ok(Class::Wrong),
        Some(name) => class_below(alloc, dir, name, props),
    }
}

/// What a resource is to a folder. `folder` is the folder's path on the server, with its escapes read and a slash at
/// its end.
pub(crate) fn class_of(
    alloc: Global,
    dir: Dir,
    folder: &[u8],
    member: &Member,
) -> Result<Class, AllocError>
    ensures { IfOk result (IsClass dir folder.now member.now) }
{
    let Some(path) = path_of(alloc, member.href.as_slice())? else {
        return Ok(Class::Wrong);
    };
    path_class(alloc, dir, folder, path.as_slice(), member.props)
}
