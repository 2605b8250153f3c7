ghost use Rattle.std.specs.Prelude.{◌≡◌, ◌≤◌, IfOk};
ghost use Rattle.jop_base.specs.Times.{last_time};
ghost use Rattle.key_commands.specs.Vaults.{LoadsBytes, MakesKey};
ghost use Rattle.sync_info.specs.Info.{IsKeyRecord};

use client::{Around, Outside};
use jed_sealing::SealErr;
use jop_base::{Bytes, Id, Text};
use jop_outside::{Clock, Entropy, Sink, Source};
use jop_target::Target;
use keeper::{Keeper, KeeperErr};
use std::alloc::Global;
use sync_info::KeyRecord;

/// The outside as commands on keys work with it: its random source makes keys, and its keeper lends the bytes of
/// resources.
pub trait Vault: Outside {
    /// Makes a key under a password, at a time in milliseconds since 1970, of the random source's next bytes.
    fn make_key(&mut self, alloc: Global, password: &Text, now: u64) -> Result<KeyRecord, SealErr>
        requires time { now ≤ last_time }
        ensures makes { MakesKey password.now now (Self.now self.old) result (Self.now self.new) }
        ensures valid { IfOk result IsKeyRecord }
        ensures stays { Self.place self.new ≡ Self.place self.old };

    /// The bytes of a resource that are kept. None if there are none.
    fn load_blob(&mut self, alloc: Global, id: &Id) -> Result<Option<Bytes>, KeeperErr>
        ensures loads { LoadsBytes id.now (Self.now self.old) result (Self.now self.new) }
        ensures stays { Self.place self.new ≡ Self.place self.old };
}

impl<'a, 'b, 'c, K: Keeper, T: Target, I: Source, O: Sink, C: Clock, N: Entropy> Vault
    for Around<'a, 'b, 'c, K, T, I, O, C, N> {
    fn make_key(&mut self, alloc: Global, password: &Text, now: u64) -> Result<KeyRecord, SealErr> {
        new_keys::make_key(alloc, password, now, &mut *self.entropy)
    }

    fn load_blob(&mut self, alloc: Global, id: &Id) -> Result<Option<Bytes>, KeeperErr> {
        self.keeper.load_blob(alloc, id)
    }
}
