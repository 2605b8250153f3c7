ghost use Rattle.std.specs.Prelude.{◌≡◌, IfOk};
ghost use Rattle.local_commands.specs.TypedIds.{typed_id};
ghost use Rattle.jop_words.specs.Words.{folder_of, word_id, kind_of, remote_of, server_of, site_kind, word_target};

use crate::target_name::{TargetKind, TargetName};
use dav_address::{read_address, read_site};
use jop_base::{Copied, Id, Seq, Text};
use local_commands::TypedId;
use std::alloc::{AllocError, Global};

/// The words behind the program's name on its command line.
#[derive(Debug, Drop)]
pub struct Words {
    pub list: Seq<Text>,
}

/// The id that a word is.
#[tactic(auto, using(crate::proofs::Ids::id_of_id, crate::proofs::Ids::id_of_other))]
pub(crate) fn read_id(word: &Text) -> Option<Id>
    ensures { result ≡ word_id word.now }
{
    Id::read(word.as_slice())
}

/// The id that a word types, whole or by its first digits.
pub(crate) fn read_typed(word: &Text) -> Option<TypedId>
    ensures { result ≡ typed_id word.now }
{
    TypedId::read(word.as_slice())
}

/// The target that a word names, if it names one.
pub(crate) fn read_target(alloc: Global, word: &Text) -> Result<Option<TargetName>, AllocError>
    ensures { IfOk result (λ target. target ≡ word_target word.now) }
{
    let Some(kind) = read_kind(alloc, word.as_str())? else {
        return Ok(None);
    };
    let text = word.copy(alloc)?;
    Ok(Some(TargetName { text, kind }))
}

/// `mem:`, `dir:` and a path that isn't empty, `dav:` and the URL of a server, or `webdav:` and that of a folder on a
/// server.
#[tactic(auto, unfolding(crate::specs::Words::kind_of))]
fn read_kind(alloc: Global, word: &str) -> Result<Option<TargetKind>, AllocError>
    ensures { IfOk result (λ kind. kind ≡ kind_of word.now) }
{
    if word == "mem:" {
        return Ok(Some(TargetKind::Mem));
    }
    match word.strip_prefix("dir:") {
        Some(path) => read_folder(alloc, path),
        None => read_remote(alloc, word),
    }
}

/// `dav:` and the URL of a server, or `webdav:` and that of a folder on a server.
#[tactic(auto, unfolding(crate::specs::Words::remote_of))]
fn read_remote(alloc: Global, word: &str) -> Result<Option<TargetKind>, AllocError>
    ensures { IfOk result (λ kind. kind ≡ remote_of word.now) }
{
    if let Some(url) = word.strip_prefix("dav:") {
        return read_server(alloc, url);
    }
    match word.strip_prefix("webdav:") {
        Some(url) => read_place(alloc, url),
        None => Ok(None),
    }
}

fn read_folder(alloc: Global, path: &str) -> Result<Option<TargetKind>, AllocError>
    ensures { IfOk result (λ kind. kind ≡ folder_of path.now) }
{
    if path.is_empty() {
        return Ok(None);
    }
    let path = Text::of(alloc, path)?;
    Ok(Some(TargetKind::Dir(path)))
}

fn read_server(alloc: Global, url: &str) -> Result<Option<TargetKind>, AllocError>
    ensures { IfOk result (λ kind. kind ≡ server_of url.now) }
{
    match read_address(alloc, url)? {
        Some(address) => Ok(Some(TargetKind::Dav(address))),
        None => Ok(None),
    }
}

fn read_place(alloc: Global, url: &str) -> Result<Option<TargetKind>, AllocError>
    ensures { IfOk result (λ kind. kind ≡ site_kind url.now) }
{
    match read_site(alloc, url)? {
        Some(site) => Ok(Some(TargetKind::WebDav(site))),
        None => Ok(None),
    }
}
