ghost use Rattle.std.specs.Prelude.{◌≡◌, IfOk, IsOk, OnErr, OnOk, true};
ghost use Rattle.client.specs.Sites.{Commits, IsSameButKeeper, IsSameSite, IsTidy, IsUnmade, KeepsBytes};
ghost use Rattle.client.specs.Sites.{Place, SiteNow, WritesDown};
ghost use Rattle.jop_target.specs.Running.{is_running};
ghost use Rattle.jop_target.specs.declared.event.Event.TheVariants.{Began, Ended};
ghost use Rattle.keeper.specs.Keepers.{HasKeeperCause, IsBlobOfKept};
ghost use Rattle.local_store.specs.Sound.{IsAllowed};

use jop_base::{Bytes, Id};
use jop_target::Line;
use keeper::KeeperErr;
use local_store::{Change, Tables};
use std::alloc::{AllocError, Global};

/// A client at work: a line to a target, and tables with their keeper.
pub trait Client: Line {
    /// What is known of its site.
    ghost site: { Self → SiteNow };

    /// The references by which it is at work.
    ghost place: { Self → Place };

    fn tables(&self) -> &Tables
        ensures { result.now ≡ (site self.now).tables };

    /// A session begins.
    fn begin(&mut self) -> Result<(), AllocError>
        ensures writes { WritesDown Began (site self.old) result (site self.new) }
        ensures stays { place self.new ≡ place self.old };

    /// The session ends. There is room for that, if one goes on.
    fn end(&mut self) -> Result<(), AllocError>
        ensures writes { WritesDown Ended (site self.old) result (site self.new) }
        ensures ends { is_running (site self.old).line.trail ≡ true → IsOk result }
        ensures stays { place self.new ≡ place self.old };

    /// Makes a change: keeps it, makes it in the tables, and writes it down in the diary by its number and in the list
    /// of changes. Room is made first. After every answer but `NoMemory` tables and keeper agree.
    fn commit(&mut self, alloc: Global, change: Change) -> Result<(), KeeperErr>
        requires tidy { IsTidy (site self.old) }
        requires allowed { IsAllowed change }
        ensures commits { Commits change (site self.old) result (site self.new) }
        ensures cause { HasKeeperCause
            (site self.old).keeper.faults result (site self.new).keeper.faults }
        ensures stays { place self.new ≡ place self.old };

    /// The bytes of the resource of this id that the keeper has. None if it has none.
    fn load_blob(&mut self, alloc: Global, id: &Id) -> Result<Option<Bytes>, KeeperErr>
        ensures told { IfOk result (λ bytes. IsBlobOfKept (site self.old).keeper.kept id.now bytes) }
        ensures same { IsUnmade (site self.old) (site self.new) }
        ensures cause { HasKeeperCause
            (site self.old).keeper.faults result (site self.new).keeper.faults }
        ensures stays { place self.new ≡ place self.old };

    /// Has the keeper save the bytes of a resource, in place of those that are there.
    fn save_blob(&mut self, alloc: Global, id: &Id, bytes: &Bytes) -> Result<(), KeeperErr>
        ensures ok { OnOk result (KeepsBytes id.now bytes.now (site self.old) (site self.new)) }
        ensures err { OnErr result ((site self.new).keeper.kept ≡ (site self.old).keeper.kept) }
        ensures same { IsSameButKeeper (site self.old) (site self.new) }
        ensures cause { HasKeeperCause
            (site self.old).keeper.faults result (site self.new).keeper.faults }
        ensures stays { place self.new ≡ place self.old };

    ghost same_line: { (a : Self) → (site a).line ≡ Self.state a };

    ghost keeps_site: { (a b : Self) → Self.keeps a b → IsSameSite (site a) (site b) };

    ghost keeps_place: { (a b : Self) → Self.keeps a b → place b ≡ place a };
}
