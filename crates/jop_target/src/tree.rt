ghost use Rattle.std.specs.Prelude.{◌≡◌};

use jop_base::{Bytes, Dir, Id, Keyed, Path, Seq};

/// What stands in a file. Of a blob a tree has the number of bytes alone, which stand elsewhere.
#[derive(Debug, Drop)]
pub enum Content {
    Whole(Bytes),
    Sized(u64),
}

/// A file, and when it was written, in milliseconds since 1970.
#[derive(Debug, Drop)]
pub struct File {
    pub path: Path,
    pub content: Content,
    pub stamp: u64,
}

impl Keyed for File {
    type Key = Path;

    ghost use Rattle.jop_base.specs.Paths.{path_text};

    ghost key = { λ f. path_text f.path };

    fn key(&self) -> Path {
        self.path
    }
}

/// The files of a target, in the order of their paths' texts, and the folders that were made, in
/// the order of their names. Each stands there once.
#[derive(Debug, Drop)]
pub struct Tree {
    pub files: Seq<File>,
    pub folders: Seq<Dir>,
}

/// The bytes of a blob.
#[derive(Debug, Drop)]
pub struct BlobBytes {
    pub id: Id,
    pub bytes: Bytes,
}

impl Keyed for BlobBytes {
    type Key = Id;

    ghost key = { λ b. b.id };

    fn key(&self) -> Id {
        self.id
    }
}
