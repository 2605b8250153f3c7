ghost use Rattle.std.specs.Prelude.{◌≡◌, ◌↔◌, IsTrue};
ghost use Rattle.std.specs.List.{AllPass};
ghost use Rattle.jed_format.specs.Write.{is_brief, IsBrief, IsJed};

use crate::sjcl_chunk::SjclChunk;
use jop_base::{Id, Seq};

/// A sealed text of Joplin's (JED01): its method, the id of its master key, and its pieces.
#[derive(Debug, Drop)]
pub struct Jed {
    /// 1 to 5, or 7. The pieces of 5 and 7 are escaped.
    pub method: u8,
    pub key: Id,
    pub chunks: Seq<SjclChunk>,
}

impl Jed {
    /// Whether the method is 5 and each chunk is valid and has at most 12,000,000 bytes of sealed
    /// text and tag: such a text may be written.
    pub fn is_brief(&self) -> bool
        ensures exact { IsTrue result ↔ IsBrief self.now }
        ensures writable { IsTrue result → IsJed self.now }
    {
        self.method == 5 && are_brief(self.chunks.as_slice())
    }
}

fn is_brief(chunk: &SjclChunk) -> bool
    ensures { result ≡ is_brief chunk.now }
{
    chunk.is_valid() && chunk.ct.len() <= 12_000_000
}

fn are_brief(chunks: &[SjclChunk]) -> bool
    ensures { IsTrue result ↔ AllPass is_brief chunks.now }
{
    for chunk in chunks {
        if !is_brief(chunk) {
            return false;
        }
    }
    true
}
