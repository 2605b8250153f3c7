ghost use Rattle.keeper.specs.Keepers.{IsOfKept};
ghost use Rattle.local_store.specs.Sound.{IsSound};

use crate::broken_off::BrokenOff;
use crate::files::bytes_of;
use crate::parts::{Part, work};
use crate::step::{Step, change_of, id_of};
use client::Site;
use conflicts::SyncReport;
use jop_base::{Bytes, Id, let_go};
use jop_target::{Diary, Target};
use keeper::Keeper;
use keeper_records::MemKeeper;
use local_store::{Changes, Tables};
use std::alloc::Global;

/// A client, and the keeper of its tables.
pub struct Client {
    pub id: Id,
    pub keeper: MemKeeper,
}

// Written out, so that what lets go of a client calls this. A derived one is written out at each end.
impl Drop for Client {
    fn drop(self) {
        let Client { id: _, keeper: _ } = self;
    }
}

fn make(alloc: Global, keeper: &mut MemKeeper, step: Step) -> Result<(), BrokenOff> {
    let change = change_of(alloc, step)?;
    let made = keeper.commit(alloc, &change);
    let_go(change);
    Ok(made?)
}

/// A keeper of a client that has done this. Each step is one change. That of a file that is read, or of
/// how far the target was read, is one call of the keeper's store, every other one two.
fn keeper_after(alloc: Global, steps: &[Step]) -> Result<MemKeeper, BrokenOff> {
    let mut keeper = MemKeeper::new(alloc);
    for index in 0..steps.len() {
        make(alloc, &mut keeper, steps[index])?;
    }
    Ok(keeper)
}

/// A session over this keeper, or a part of one.
fn session<K: Keeper, T: Target>(
    alloc: Global,
    id: &Id,
    keeper: &mut K,
    target: &mut T,
    part: Part,
) -> Result<SyncReport, BrokenOff> {
    let mut tables = keeper.read(alloc)?;
    let mut diary = Diary::new(alloc);
    let mut made = Changes::new(alloc);
    session_on(
        alloc,
        id,
        keeper,
        &mut tables,
        target,
        &mut diary,
        &mut made,
        part,
    )
}

/// The same on the tables as they were read.
fn session_on<K: Keeper, T: Target>(
    alloc: Global,
    id: &Id,
    keeper: &mut K,
    tables: &mut Tables,
    target: &mut T,
    diary: &mut Diary,
    made: &mut Changes,
    part: Part,
) -> Result<SyncReport, BrokenOff>
    requires sound { IsSound tables.old }
    requires told { IsOfKept (K.state keeper.old).kept tables.old }
{
    if tables.info.e2ee.value {
        return Err(BrokenOff::Sealed);
    }
    diary.begin()?;
    let mut site = Site {
        target,
        keeper,
        tables,
        diary,
        made,
    };
    work(alloc, &mut site, id, part)
}

impl Client {
    /// A client of this id that has done these steps.
    pub fn after(alloc: Global, digits: &str, steps: &[Step]) -> Result<Client, BrokenOff> {
        let id = id_of(digits)?;
        let keeper = keeper_after(alloc, steps)?;
        Ok(Client { id, keeper })
    }

    /// Its user adds these bytes to the resource.
    pub fn attach(&mut self, alloc: Global, digits: &str, bytes: &str) -> Result<(), BrokenOff> {
        let bytes = bytes_of(alloc, bytes)?;
        self.keeper.save_blob(alloc, &id_of(digits)?, &bytes)?;
        Ok(())
    }

    /// The bytes of the resource that it has. None if it has none.
    pub fn bytes(&mut self, alloc: Global, digits: &str) -> Result<Option<Bytes>, BrokenOff> {
        Ok(self.keeper.load_blob(alloc, &id_of(digits)?)?)
    }

    /// A session, or a part of one, up to its last call under the lease, which isn't released.
    pub fn sync<T: Target>(
        &mut self,
        alloc: Global,
        target: &mut T,
        part: Part,
    ) -> Result<SyncReport, BrokenOff> {
        session(alloc, &self.id, &mut self.keeper, target, part)
    }
}
