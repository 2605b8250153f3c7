use crate::fault::{Fault, FaultKind};
use crate::machine::Client;
use crate::scene::{File, Scene};
use crate::served::{Served, fail_call, hold, lose, served};
use dav_parts::read_path;
use jop_base::Path;
use std::alloc::{AllocError, Global};
use std::test::Fail;

/// A client, and its target.
pub(crate) struct Place {
    pub client: Client,
    pub target: Served,
}

// Written out, as that of a client is.
impl Drop for Place {
    fn drop(self) {
        let Place {
            client: _,
            target: _,
        } = self;
    }
}

fn path_of(name: &str) -> Result<Path, Fail> {
    Ok(read_path(name.as_bytes()).ok_or("a path")?)
}

/// The exit status of a command on the target itself.
fn play_near(
    alloc: Global,
    client: &mut Client,
    target: &mut Served,
    command: &str,
) -> Result<u8, AllocError> {
    client.play(alloc, &mut target.link.target, command)
}

impl Place {
    fn new(alloc: Global) -> Result<Place, AllocError> {
        let client = Client::new(alloc)?;
        let target = served(alloc)?;
        Ok(Place { client, target })
    }

    /// A place as the scene has it before its command.
    pub(crate) fn of(alloc: Global, scene: &Scene) -> Result<Place, Fail> {
        let mut place = Place::new(alloc)?;
        place.fill(alloc, scene)?;
        Ok(place)
    }

    fn fill(&mut self, alloc: Global, scene: &Scene) -> Result<(), Fail> {
        self.write_all(alloc, scene.files)?;
        self.pass(alloc, scene.day)?;
        self.write_all(alloc, scene.since)?;
        self.pass(alloc, scene.evening)
    }

    /// Others write files, or delete them.
    fn write_all(&mut self, alloc: Global, files: &[File]) -> Result<(), Fail> {
        for file in files {
            self.write(alloc, *file)?;
        }
        Ok(())
    }

    fn write(&mut self, alloc: Global, file: File) -> Result<(), Fail> {
        match file {
            File::Holds(name, text) => {
                let path = path_of(name)?;
                hold(alloc, &mut self.target, path, text)?;
            }
            File::Gone(name) => {
                let path = path_of(name)?;
                self.lose(alloc, path)?;
            }
        }
        Ok(())
    }

    fn lose(&mut self, alloc: Global, path: Path) -> Result<(), AllocError> {
        self.client.calls = self.client.calls.saturating_add(1);
        lose(alloc, &mut self.target, path)
    }

    /// The client obeys a command a line.
    fn pass(&mut self, alloc: Global, day: &str) -> Result<(), Fail> {
        for line in day.lines() {
            if self.play(alloc, line)? != 0 {
                return Err(Fail::new("a day that passes well"));
            }
        }
        Ok(())
    }

    /// The exit status of a command on the target itself.
    pub(crate) fn play(&mut self, alloc: Global, command: &str) -> Result<u8, AllocError> {
        play_near(alloc, &mut self.client, &mut self.target, command)
    }

    /// The exit status of a command over the link.
    fn play_far(&mut self, alloc: Global, command: &str) -> Result<u8, AllocError> {
        self.client.play(alloc, &mut self.target, command)
    }

    /// Plans a fault of the next command. The client has asked its tables so often before it.
    fn plan(&mut self, fault: Fault, asked: u64) -> Result<(), AllocError> {
        let call = self.client.calls.saturating_add(fault.nth);
        match fault.kind {
            FaultKind::Lost => fail_call(&mut self.target, call, false),
            FaultKind::Landed => fail_call(&mut self.target, call, true),
            FaultKind::Kept => self.client.keeper.fail(asked.saturating_add(fault.nth)),
            FaultKind::Passed => self.target.link.fail(fault.nth),
        }
    }

    /// The exit status of the scene's command, in which that fails.
    pub(crate) fn play_with(
        &mut self,
        alloc: Global,
        scene: &Scene,
        fault: Fault,
    ) -> Result<u8, AllocError> {
        self.plan(fault, scene.asked)?;
        match fault.kind {
            FaultKind::Passed => self.play_far(alloc, scene.command),
            _ => self.play(alloc, scene.command),
        }
    }
}
