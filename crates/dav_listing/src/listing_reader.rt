ghost use Rattle.std.specs.Prelude.{◌≡◌, ◌++◌, [], ℕ, List, IfOk, IfSome, IfNone, OnOk};
ghost use Rattle.jop_target.specs.declared.reply.Entry.{Entry as Shown};
ghost use Rattle.dav_listing.specs.Listings.{ListsFiles};
ghost use Rattle.dav_listing.specs.Readers.{HasReadBody, IsEndedClass, ReadsSame, TakesByte, TakesMember, is_complete};

use crate::class::{Class, class_of};
use crate::multistatus_reader::MultistatusReader;
use crate::rising::in_rising_order;
use jop_base::{Bytes, Dir, Seq};
use jop_target::Entry;
use std::alloc::{AllocError, Global};

/// Reads the listing of a folder, in pieces as they come. It keeps the files, the folder's path, and less than 8,192
/// bytes.
#[derive(Debug, Drop)]
pub struct ListingReader {
    pub dir: Dir,
    /// The folder's path on the server, with its escapes read and a slash at its end.
    pub folder: Bytes,
    pub reader: MultistatusReader,
    /// The files so far, in the body's order.
    pub files: Seq<Entry>,
    /// Whether the folder itself was shown.
    pub own: bool,
    /// Whether a resource was shown that no listing shows.
    pub wrong: bool,
}

impl ListingReader {
    pub fn new(alloc: Global, dir: Dir, folder: Bytes) -> ListingReader
        ensures dir { result.dir ≡ dir }
        ensures folder { result.folder ≡ folder }
        ensures read { HasReadBody result [] }
    {
        ListingReader {
            dir,
            folder,
            reader: MultistatusReader::new(alloc),
            files: Seq::new(alloc),
            own: false,
            wrong: false,
        }
    }

    /// What the resource is whose response has just ended. None if none has.
    fn ended_class(&self, alloc: Global) -> Result<Option<Class>, AllocError>
        ensures { IfOk result (IsEndedClass self.now self.now.reader.ended) }
    {
        match &self.reader.ended {
            None => Ok(None),
            Some(member) => {
                let class = class_of(alloc, self.dir, self.folder.as_slice(), member)?;
                Ok(Some(class))
            }
        }
    }

    /// Takes the resource whose response has just ended, if one has.
    fn take_ended(&mut self, alloc: Global) -> Result<(), AllocError>
        ensures { OnOk result (TakesMember self.old self.old.reader.ended self.new) }
    {
        let class = self.ended_class(alloc)?;
        match class {
            Some(Class::Itself) => {
                self.wrong = self.wrong || self.own;
                self.own = true;
                Ok(())
            }
            Some(Class::File(path, stamp)) => {
                self.files.push(Entry { path, stamp })?;
                Ok(())
            }
            Some(Class::Wrong) => {
                self.wrong = true;
                Ok(())
            }
            Some(Class::Foreign) => Ok(()),
            None => Ok(()),
        }
    }

    fn take_byte(&mut self, alloc: Global, byte: u8) -> Result<(), AllocError>
        ensures { OnOk result (TakesByte self.old byte self.new) }
    {
        if self.wrong {
            return Ok(());
        }
        self.reader.step(alloc, byte)?;
        self.take_ended(alloc)
    }

    /// Takes more of the body.
    pub fn feed(&mut self, alloc: Global, piece: &[u8]) -> Result<(), AllocError>
        ensures same { OnOk result (ReadsSame self.old self.new) }
        ensures read { OnOk result ((body : List ℕ)
            → HasReadBody self.old body → HasReadBody self.new (body ++ piece.now)) }
    {
        for byte in piece {
            self.take_byte(alloc, *byte)?;
        }
        Ok(())
    }

    /// Whether nothing was wrong, the folder itself was shown, and the body may end here.
    fn is_complete(&self) -> bool
        ensures { result ≡ is_complete self.now }
    {
        !self.wrong && self.own && self.reader.is_whole()
    }

    /// The files in rising order, if the bytes so far are a listing of the folder.
    pub fn finish(self) -> Option<Seq<Entry>>
        ensures found { IfSome result (λ entries. (body : List ℕ) → HasReadBody self body
            → ListsFiles self.dir self.folder body entries) }
        ensures none { IfNone result ((body : List ℕ) (entries : List Shown) → HasReadBody self body
            → ¬ (ListsFiles self.dir self.folder body entries)) }
    {
        if self.is_complete() {
            in_rising_order(self.files)
        } else {
            None
        }
    }
}

/// The files of a folder that the body of a 207 response lists, in the order of their paths' texts. `folder` is the
/// folder's path on the server, with its escapes read and a slash at its end. None if the body is no listing of it.
pub fn read_listing(
    alloc: Global,
    dir: Dir,
    folder: Bytes,
    body: &[u8],
) -> Result<Option<Seq<Entry>>, AllocError>
    ensures found { IfOk result (λ found. IfSome found (ListsFiles dir folder body.now)) }
    ensures none { IfOk result (λ found. IfNone found
        ((entries : List Shown) → ¬ (ListsFiles dir folder body.now entries))) }
{
    let mut reader = ListingReader::new(alloc, dir, folder);
    reader.feed(alloc, body)?;
    Ok(reader.finish())
}
