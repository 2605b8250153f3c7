ghost use Rattle.std.specs.Prelude.{◌≡◌, Err, IfOk, OnErr, true};
ghost use Rattle.jop_start.specs.Opening.{OpensOn, OpensNew, WhileOpen, is_folder_kind, new_target};

use crate::opener::Opener;
use crate::server::{server_target, site_target};
use crate::start_err::StartErr;
use crate::work::Work;
use client::draw_id;
use jop_base::Text;
use jop_host::SystemEntropy;
use jop_target::{MemTarget, Target};
use jop_watch::{Waiting, WatchedKeeper, WatchedTarget, Watcher};
use jop_words::{Profile, TargetKind};
use keeper::Keeper;
use keeper_records::MemKeeper;
use keeper_sqlite::keeper_at;
use std::alloc::Global;
use std::cell::Cell;
use target_files::FolderTarget;

/// The opener of the system's files, folders and servers, and of tables and targets in memory, which are gone when they
/// are closed. Each is in a box, so that no proof of what is done with it writes out what it is. A watcher is told of
/// what is done with the target.
#[derive(Drop)]
pub struct SystemOpener<V: Watcher> {
    rt: HostRuntime,
    watcher: V,
    /// That of the user whom the URL of a target names.
    password: Text,
}

impl<V: Watcher> SystemOpener<V> {
    /// The password is sent to the server of a target whose URL names a user, and to no other.
    pub fn new(rt: HostRuntime, watcher: V, password: Text) -> SystemOpener<V> {
        SystemOpener {
            rt,
            watcher,
            password,
        }
    }

    /// Opens a target of this kind, and has the work done on it and on this keeper.
    fn open_beside<K: Keeper, W: Work>(
        &mut self,
        alloc: Global,
        keeper: K,
        kind: TargetKind,
        work: &mut W,
    ) -> Result<u8, StartErr>
        ensures works { IfOk result (λ exit.
            WhileOpen (OpensOn (K.state keeper) (new_target kind))
            (W.does work.old work.new exit)) }
        ensures drawn { result ≡ Err StartErr.EntropyFault → is_folder_kind kind ≡ true }
        ensures idle { OnErr result (work.new ≡ work.old) }
        ensures unopened { OnErr result (self.new ≡ self.old) }
    {
        match kind {
            TargetKind::Mem => {
                let target: Box<dyn Target> = Box::new(alloc, MemTarget::new(alloc, 0, 1))?;
                Ok(lend(alloc, keeper, target, &mut self.watcher, work))
            }
            TargetKind::Dir(root) => {
                let temp = draw_id(&mut SystemEntropy::new(self.rt))?;
                let target: Box<dyn Target> = Box::new(
                    alloc,
                    FolderTarget::new(self.rt, root, temp),
                )?;
                Ok(lend(alloc, keeper, target, &mut self.watcher, work))
            }
            TargetKind::Dav(address) => {
                let target: Box<dyn Target> = Box::new(alloc, server_target(&self.rt, address)?)?;
                Ok(lend(alloc, keeper, target, &mut self.watcher, work))
            }
            TargetKind::WebDav(name) => {
                let target: Box<dyn Target> = Box::new(
                    alloc,
                    site_target(&self.rt, name, &self.password)?,
                )?;
                Ok(lend(alloc, keeper, target, &mut self.watcher, work))
            }
        }
    }
}

impl<V: Watcher> Opener for SystemOpener<V> {
    ghost opens = { λ old new. OpensNew };

    fn open<W: Work>(
        &mut self,
        alloc: Global,
        profile: Profile,
        kind: TargetKind,
        work: &mut W,
    ) -> Result<u8, StartErr> {
        match profile {
            Profile::Memory => {
                let keeper: Box<dyn Keeper> = Box::new(alloc, MemKeeper::new(alloc))?;
                self.open_beside(alloc, keeper, kind, work)
            }
            Profile::File(path) => {
                let keeper: Box<dyn Keeper> = Box::new(alloc, keeper_at(self.rt, path))?;
                self.open_beside(alloc, keeper, kind, work)
            }
        }
    }
}

/// Has the work done on this keeper and this target, of which a watcher is told, and lets go of them.
fn lend<K: Keeper, T: Target, V: Watcher, W: Work>(
    alloc: Global,
    keeper: K,
    target: T,
    watcher: &mut V,
    work: &mut W,
) -> u8
    ensures { WhileOpen (OpensOn (K.state keeper) (T.state target))
        (W.does work.old work.new result) }
{
    let waiting = Cell::new(Waiting::none());
    let mut keeper = WatchedKeeper {
        keeper,
        waiting: &waiting,
    };
    let mut target = WatchedTarget {
        target,
        watcher,
        waiting: &waiting,
    };
    work.done(alloc, &mut keeper, &mut target)
}
