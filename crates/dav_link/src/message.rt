ghost use Rattle.std.specs.Prelude.{ℕ, ◌≡◌, IfNone, IfOk, IfSome, IsTrue, ◌↔◌};
ghost use Rattle.dav_link.specs.Awaiting.{MessageNow, IsReadAsItComes};

use std::alloc::{AllocError, Global};

/// A message that is read of a link: how many of its bytes are missing, and whether they are too few to
/// say what it is.
pub trait Message {
    /// How it is read in the bytes that came so far.
    ghost reads: { Self → MessageNow };

    /// How many bytes are missing, as soon as the head tells; 0 if none is. None if the head isn't whole,
    /// or is refused.
    fn missing(&self, bytes: &[u8]) -> Option<u64>
        ensures some { IfSome result ((reads self.now).misses bytes.now) }
        ensures none { IfNone result ((count : ℕ) → ¬ ((reads self.now).misses bytes.now count)) };

    /// Whether the bytes are too few.
    fn is_more(&self, alloc: Global, bytes: &[u8]) -> Result<bool, AllocError>
        ensures { IfOk result (λ is. IsTrue is ↔ (reads self.now).more bytes.now) };

    /// The most bytes that are waited for once the head tells.
    fn limit(&self) -> u64
        ensures { result ≡ (reads self.now).limit };

    ghost laws: { (m : Self) → IsReadAsItComes (reads m) };
}
