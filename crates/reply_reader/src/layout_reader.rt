ghost use Rattle.std.specs.Prelude.{◌≡◌, ◌++◌, ◌∷◌, [], ℕ, List, MatchOption, OnOk, Some, length, false};
ghost use Rattle.dav_parts.specs.Multistatus.{ReadsMultistatus};
ghost use Rattle.jop_target.specs.declared.reply.Entry.{Entry as Shows};
ghost use Rattle.reply_reader.specs.Layouts.{ReadsFurther, HasReadLayout, IsFront, IsHalfLine, IsOneLine, TakesLines, has_feed};

use crate::line::{Line, read_line, split_line};
use dav_parts::after_folder;
use jop_base::{Bytes, Dir, Seq};
use jop_target::Entry;
use std::alloc::{AllocError, Global};
use std::mem;

/// What is kept of a line, or of the lines of the folder itself, has fewer bytes.
const LINE_LIMIT: usize = 512;

/// What comes next in the body that lists a folder.
#[derive(Clone, Copy, Debug, PartialEq, Eq)]
pub(crate) enum Place {
    /// The lines of the folder itself.
    Front,
    /// The line of a file, or the last one.
    Files,
    /// Nothing: the last line came.
    Ended,
    /// It makes no difference: the body isn't in its layout.
    Lost,
}

/// Reads the body that lists a folder line by line, as it comes. It keeps the files, and less than a line.
#[derive(Debug, Drop)]
pub struct LayoutReader {
    dir: Dir,
    place: Place,
    /// What came of a line that isn't whole, or of the lines of the folder itself.
    line: Bytes,
    /// The file that came last.
    before: Option<Entry>,
    entries: Seq<Entry>,
}

/// What comes next, by what came of the lines of the folder itself.
fn front_of(dir: Dir, text: &[u8]) -> Place
    ensures { IsFront dir text.now result }
{
    match after_folder(dir, text) {
        Some(_) => Place::Files,
        None => {
            if text.len() < LINE_LIMIT {
                Place::Front
            } else {
                Place::Lost
            }
        }
    }
}

impl LayoutReader {
    /// Reads the body that lists this folder.
    pub(crate) fn new(alloc: Global, dir: Dir) -> LayoutReader
        ensures come { HasReadLayout result [] }
        ensures dir { result.dir ≡ dir }
    {
        LayoutReader {
            dir,
            place: Place::Front,
            line: Bytes::new(alloc),
            before: None,
            entries: Seq::new(alloc),
        }
    }

    /// How many bytes are kept beside the files.
    pub(crate) fn held(&self) -> u64
        ensures { result ≡ length self.now.line }
    {
        self.line.len() as u64
    }

    /// Takes more of the body.
    pub(crate) fn feed(&mut self, alloc: Global, piece: &[u8]) -> Result<(), AllocError>
        ensures come { (done : List ℕ) → HasReadLayout self.old done
            → OnOk result (HasReadLayout self.new (done ++ piece.now)) }
        ensures dir { self.new.dir ≡ self.old.dir }
    {
        let mut rest = piece;
        while let Some((line, behind)) = split_line(rest) {
            self.take_line(alloc, line)?;
            rest = behind;
        }
        self.take_part(alloc, rest)?;
        Ok(())
    }

    /// The files, if what came is the whole body in its layout.
    pub(crate) fn finish(self) -> Option<Seq<Entry>>
        ensures { (done : List ℕ) → HasReadLayout self done → MatchOption result
            ((entries : List Shows) → ¬ (ReadsMultistatus self.dir entries done))
            (λ entries. ReadsMultistatus self.dir entries done) }
    {
        match self.place {
            Place::Ended => Some(self.entries),
            _ => None,
        }
    }

    /// Takes the end of a line, its line feed with it.
    fn take_line(&mut self, alloc: Global, end: &[u8]) -> Result<(), AllocError>
        ensures goes { IsOneLine end.now → IsHalfLine self.old.place self.old.dir self.old.line
            → OnOk result (ReadsFurther self.old self.new end.now) }
        ensures dir { self.new.dir ≡ self.old.dir }
    {
        match self.place {
            Place::Front => self.take_front(alloc, end),
            Place::Files => self.take_file(alloc, end),
            Place::Ended => {
                self.place = Place::Lost;
                Ok(())
            }
            Place::Lost => Ok(()),
        }
    }

    /// Takes a line of those of the folder itself.
    fn take_front(&mut self, alloc: Global, end: &[u8]) -> Result<(), AllocError>
        requires place { self.old.place ≡ Place.Front }
        ensures goes { IsOneLine end.now → IsHalfLine self.old.place self.old.dir self.old.line
            → OnOk result (ReadsFurther self.old self.new end.now) }
        ensures dir { self.new.dir ≡ self.old.dir }
    {
        self.line.append(end)?;
        match front_of(self.dir, self.line.as_slice()) {
            Place::Front => {}
            place => {
                self.place = place;
                self.line = Bytes::new(alloc);
                self.before = None;
            }
        }
        Ok(())
    }

    /// Takes the line of a file, or the last one.
    fn take_file(&mut self, alloc: Global, end: &[u8]) -> Result<(), AllocError>
        requires place { self.old.place ≡ Place.Files }
        ensures goes { IsOneLine end.now → IsHalfLine self.old.place self.old.dir self.old.line
            → OnOk result (ReadsFurther self.old self.new end.now) }
        ensures dir { self.new.dir ≡ self.old.dir }
    {
        if self.line.is_empty() {
            return self.end_line(end);
        }
        let mut line = mem::replace(&mut self.line, Bytes::new(alloc));
        line.append(end)?;
        self.end_line(line.as_slice())?;
        Ok(())
    }

    /// Takes a whole line, of which nothing is kept.
    fn end_line(&mut self, line: &[u8]) -> Result<(), AllocError>
        requires place { self.old.place ≡ Place.Files }
        ensures goes { IsOneLine line.now → self.old.line ≡ []
            → OnOk result (ReadsFurther self.old self.new line.now) }
        ensures dir { self.new.dir ≡ self.old.dir }
    {
        let before = self.before;
        match read_line(self.dir, &before, line) {
            Line::File(entry) => {
                self.keep(&entry)?;
                Ok(())
            }
            Line::Last => {
                self.place = Place::Ended;
                Ok(())
            }
            Line::Other => {
                self.place = Place::Lost;
                Ok(())
            }
        }
    }

    /// Takes a file.
    fn keep(&mut self, entry: &Entry) -> Result<(), AllocError>
        ensures keeps { OnOk result (self.new ≡ record self.old {
          before = Some entry.now;
          entries = self.old.entries ++ entry.now ∷ [];
        }) }
        ensures dir { self.new.dir ≡ self.old.dir }
    {
        self.entries.push(*entry)?;
        self.before = Some(*entry);
        Ok(())
    }

    /// Takes a part of a line, without its line feed.
    fn take_part(&mut self, alloc: Global, part: &[u8]) -> Result<(), AllocError>
        ensures goes { has_feed part.now ≡ false
            → IsHalfLine self.old.place self.old.dir self.old.line
            → OnOk result (ReadsFurther self.old self.new part.now) }
        ensures dir { self.new.dir ≡ self.old.dir }
    {
        if part.is_empty() {
            return Ok(());
        }
        match self.place {
            Place::Front | Place::Files => self.join(alloc, part),
            Place::Ended => {
                self.place = Place::Lost;
                Ok(())
            }
            Place::Lost => Ok(()),
        }
    }

    /// Keeps a part of a line behind what is kept of it, unless both are longer than any line.
    fn join(&mut self, alloc: Global, part: &[u8]) -> Result<(), AllocError>
        ensures goes { TakesLines self.old.place → has_feed part.now ≡ false
            → IsHalfLine self.old.place self.old.dir self.old.line
            → OnOk result (ReadsFurther self.old self.new part.now) }
        ensures dir { self.new.dir ≡ self.old.dir }
    {
        if part.len() >= LINE_LIMIT.saturating_sub(self.line.len()) {
            self.place = Place::Lost;
            self.line = Bytes::new(alloc);
            return Ok(());
        }
        self.line.append(part)?;
        Ok(())
    }
}
