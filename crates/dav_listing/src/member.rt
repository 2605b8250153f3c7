ghost use Rattle.std.specs.Prelude.{◌≡◌};
ghost use Rattle.dav_listing.specs.Members.{no_props, tell_twice, told_together};

use jop_base::Bytes;

/// What is said of a resource: when it was written, in milliseconds since 1970, and whether it is a folder.
#[derive(Clone, Copy, Debug, PartialEq, Eq)]
pub struct Props {
    pub stamp: Option<u64>,
    pub folder: Option<bool>,
}

/// A resource that a listing shows.
#[derive(Debug, Drop)]
pub struct Member {
    /// What it is called, with XML's entities read, and the escapes of a URL as they stand.
    pub href: Bytes,
    pub props: Props,
}

impl Props {
    /// Nothing is said.
    pub fn none() -> Props
        ensures { result ≡ no_props }
    {
        Props {
            stamp: None,
            folder: None,
        }
    }

    /// Whether one thing is said by both.
    pub(crate) fn tell_twice(&self, other: &Props) -> bool
        ensures { result ≡ tell_twice self.now other.now }
    {
        (self.stamp.is_some() && other.stamp.is_some())
            || (self.folder.is_some() && other.folder.is_some())
    }

    /// What the two say together.
    pub(crate) fn together(&self, other: &Props) -> Props
        ensures { result ≡ told_together self.now other.now }
    {
        let stamp = match self.stamp {
            None => other.stamp,
            Some(stamp) => Some(stamp),
        };
        let folder = match self.folder {
            None => other.folder,
            Some(folder) => Some(folder),
        };
        Props { stamp, folder }
    }
}
