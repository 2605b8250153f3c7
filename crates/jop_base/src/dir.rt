ghost use Rattle.std.specs.Prelude.{◌≡◌, ◌∷◌, IfNone, IfOk, IfSome};
ghost use Rattle.jop_base.specs.Paths.{dir_prefix, dir_text};
ghost use Rattle.jop_base.specs.declared.dir.Dir.{Dir};

use crate::text::Text;
use std::alloc::{AllocError, Global};
use std::fmt;

/// A folder of a target.
#[derive(Clone, Copy, Debug, PartialEq, Eq, PartialOrd, Ord)]
pub enum Dir {
    Root,
    Resources,
    OldSync,
    Locks,
    Temp,
    /// Where a later version of targets records what was deleted.
    Tombs,
}

impl Dir {
    /// All folders.
    pub const ALL: [Dir; 6] = [
        Dir::Root,
        Dir::Resources,
        Dir::OldSync,
        Dir::Locks,
        Dir::Temp,
        Dir::Tombs,
    ];

    /// The folder from the root on: its name between two slashes, for the root one slash.
    pub fn absolute(self) -> &'static str
        ensures { result.now ≡ 47 ∷ dir_prefix self }
    {
        match self {
            Dir::Root => "/",
            Dir::Resources => "/.resource/",
            Dir::OldSync => "/.sync/",
            Dir::Locks => "/locks/",
            Dir::Temp => "/temp/",
            Dir::Tombs => "/deleted/",
        }
    }

    /// What stands before the names of the folder's files: its name and a slash, for the root nothing.
    pub fn prefix(self) -> &'static str
        ensures { result.now ≡ dir_prefix self }
    {
        self.absolute().strip_prefix('/').unwrap_or("")
    }

    /// The name of the folder; that of the root is empty.
    pub fn as_str(self) -> &'static str
        ensures { result.now ≡ dir_text self }
    {
        self.prefix().strip_suffix('/').unwrap_or("")
    }

    /// The name of the folder; that of the root is empty.
    pub fn text(&self, alloc: Global) -> Result<Text, AllocError>
        ensures { IfOk result (λ text. text ≡ dir_text self.now) }
    {
        Text::of(alloc, self.as_str())
    }

    /// The folder before the names of whose files this stands. None exactly if it stands before none.
    pub fn of_prefix(prefix: &[u8]) -> Option<Dir>
        ensures some { IfSome result (λ dir. dir_prefix dir ≡ prefix.now) }
        ensures none { IfNone result ((dir : Dir) → ¬ (dir_prefix dir ≡ prefix.now)) }
    {
        for dir in &Dir::ALL {
            if dir.prefix().as_bytes() == prefix {
                return Some(*dir);
            }
        }
        None
    }
}

impl fmt::Display for Dir {
    ghost use Rattle.std.specs.Prelude.{Some};
    ghost use Rattle.std.specs.Fmt.{padded};

    ghost output = { λ dir. Some (dir_text dir) };

    ghost styled_output = { λ dir spec. Some (padded spec (dir_text dir)) };

    fn fmt<W: fmt::Write>(&self, f: &mut fmt::Formatter<W>) -> fmt::Result {
        f.pad(self.as_str())
    }
}
