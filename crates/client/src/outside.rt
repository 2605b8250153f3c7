ghost use Rattle.std.specs.Prelude.{◌≡◌};
ghost use Rattle.client.specs.Outside.{DoesOr, DrawsId, OutsideNow, OutsidePlace, ReadsInput};
ghost use Rattle.client.specs.Outside.{ReadsTables, TellsTime, with_bytes, with_change};
ghost use Rattle.local_store.specs.Sound.{IsAllowed};

use jop_base::{Bytes, Id};
use jop_outside::{Failed, ReadErr};
use keeper::KeeperErr;
use local_store::{Change, Tables};
use std::alloc::Global;

/// All that a run works with outside itself: the keeper of the client's tables, a target, the streams, a clock and a
/// random source; and what the run writes down of what it does, its diary and its changes.
pub trait Outside {
    /// What is known of it.
    ghost now: { Self → OutsideNow };

    /// The references by which a run works with it.
    ghost place: { Self → OutsidePlace };

    /// The tables that are kept.
    fn read_tables(&mut self, alloc: Global) -> Result<Tables, KeeperErr>
        ensures reads { ReadsTables (now self.old) result (now self.new) }
        ensures stays { place self.new ≡ place self.old };

    /// Makes a change: keeps it, and writes it down in the diary by its number and in the list of changes. A change
    /// that is refused is written down nowhere.
    fn commit(&mut self, alloc: Global, change: Change) -> Result<(), KeeperErr>
        requires { IsAllowed change }
        ensures commits { DoesOr (with_change change) (now self.old) result (now self.new) }
        ensures stays { place self.new ≡ place self.old };

    /// Saves the bytes of a resource, in place of those that are there.
    fn save_blob(&mut self, alloc: Global, id: &Id, bytes: &Bytes) -> Result<(), KeeperErr>
        ensures saves { DoesOr (with_bytes id.now bytes.now) (now self.old) result (now self.new) }
        ensures stays { place self.new ≡ place self.old };

    /// The whole input, if it has no more bytes than this.
    fn read_input(&mut self, alloc: Global, limit: usize) -> Result<Bytes, ReadErr>
        ensures reads { ReadsInput limit (now self.old) result (now self.new) }
        ensures stays { place self.new ≡ place self.old };

    /// The time, in milliseconds since 1970.
    fn time(&mut self) -> Result<u64, Failed>
        ensures tells { TellsTime (now self.old) result (now self.new) }
        ensures stays { place self.new ≡ place self.old };

    /// An id of 16 random bytes, in hexadecimal digits.
    fn draw_id(&mut self) -> Result<Id, Failed>
        ensures draws { DrawsId (now self.old) result (now self.new) }
        ensures stays { place self.new ≡ place self.old };
}
