ghost use Rattle.std.specs.Prelude.{◌≡◌, IfOk};

use crate::record_err::RecordErr;
use std::alloc::Global;

/// A record that may hold a value.
pub trait Record: Drop {
    type Held: Drop;

    /// Which values the record holds, and which values are sound.
    ghost holds: { Self → Self.Held → Type 0 };

    ghost is_sound: { Self.Held → Type 0 };

    /// The sound value that the record holds.
    fn read(&self, alloc: Global) -> Result<Self::Held, RecordErr>
        ensures ok { IfOk result (λ value. holds self.now value × is_sound value) }
        ensures bad { result ≡ Err RecordErr.Bad
            → (value : Self.Held) → is_sound value → ¬ holds self.now value };
}
