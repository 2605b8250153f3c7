ghost use Rattle.std.specs.Prelude.{◌≡◌, true, IfOk};
ghost use Rattle.std.specs.List.{list_all};
ghost use Rattle.test_script.specs.Script.{names_no_blob, is_scriptable};

use crate::texts::{A, F, FOLDER, RENAMED};
use jop_base::{Bytes, Path};
use jop_target::Call;
use std::alloc::{AllocError, Global};
use std::test::Fail;
use test_client::{
    BrokenOff, Client, OWN, Part, Standing, Step, Text, counts, holds, id_of, target_of,
};
use test_script::ScriptedTarget;

const OLD: &str = concat!(
    "A\n\nold\n\nid: aaaaaaaaaaaaaaaaaaaaaaaaaaaaaaaa\n",
    "parent_id: ffffffffffffffffffffffffffffffff\ntype_: 1"
);

const MINE: &str = concat!(
    "A\n\nmine\n\nid: aaaaaaaaaaaaaaaaaaaaaaaaaaaaaaaa\n",
    "parent_id: ffffffffffffffffffffffffffffffff\ntype_: 1"
);

const THEIRS: &str = concat!(
    "A\n\ntheirs\n\nid: aaaaaaaaaaaaaaaaaaaaaaaaaaaaaaaa\n",
    "parent_id: ffffffffffffffffffffffffffffffff\ntype_: 1"
);

/// A note was edited, and its folder renamed.
const STEPS: [Step; 4] = [
    Step::Take(A, OLD),
    Step::Take(F, FOLDER),
    Step::Save(A, MINE),
    Step::Save(F, RENAMED),
];

const FILES: [Text; 2] = [(A, OLD), (F, FOLDER)];

/// Both were put.
const PUT: Standing = Standing {
    rows: &[(A, MINE, false), (F, RENAMED, false)],
    copies: &[],
};

/// What another client does.
#[derive(Clone, Copy)]
enum Deed {
    Edits,
    Deletes,
    DeletesFolder,
}

/// What another client does right before a call of the upload, the first and the last of these, and
/// what comes of it. The upload makes four calls for its lease; the fifth gets the note and the
/// sixth puts it; the seventh gets the folder and the eighth puts it.
#[derive(Clone, Copy)]
struct Case {
    name: &'static str,
    deed: Deed,
    first: u64,
    last: u64,
    standing: Standing,
    /// The files of the note and of the folder.
    files: (Option<&'static str>, Option<&'static str>),
    /// How many items are put, and how many conflict notes made.
    done: (u64, u64),
}

const EDITS: [Case; 3] = [
    Case {
        name: "an edit before the check",
        deed: Deed::Edits,
        first: 1,
        last: 5,
        standing: Standing {
            rows: &[(A, THEIRS, false), (F, RENAMED, false)],
            copies: &[(A, MINE)],
        },
        files: (Some(THEIRS), Some(RENAMED)),
        done: (1, 1),
    },
    Case {
        name: "an edit between the check and the put",
        deed: Deed::Edits,
        first: 6,
        last: 6,
        standing: PUT,
        files: (Some(MINE), Some(RENAMED)),
        done: (2, 0),
    },
    Case {
        name: "an edit after the put",
        deed: Deed::Edits,
        first: 7,
        last: 8,
        standing: PUT,
        files: (Some(THEIRS), Some(RENAMED)),
        done: (2, 0),
    },
];

const DELETIONS: [Case; 3] = [
    Case {
        name: "a deletion before the check",
        deed: Deed::Deletes,
        first: 1,
        last: 5,
        standing: Standing {
            rows: &[(F, RENAMED, false)],
            copies: &[(A, MINE)],
        },
        files: (None, Some(RENAMED)),
        done: (1, 1),
    },
    Case {
        name: "a deletion between the check and the put",
        deed: Deed::Deletes,
        first: 6,
        last: 6,
        standing: PUT,
        files: (Some(MINE), Some(RENAMED)),
        done: (2, 0),
    },
    Case {
        name: "a deletion after the put",
        deed: Deed::Deletes,
        first: 7,
        last: 8,
        standing: PUT,
        files: (None, Some(RENAMED)),
        done: (2, 0),
    },
];

const FOLDER_DELETIONS: [Case; 2] = [
    Case {
        name: "a deletion of the folder before its check",
        deed: Deed::DeletesFolder,
        first: 1,
        last: 7,
        standing: Standing {
            rows: &[],
            copies: &[(A, MINE)],
        },
        files: (Some(MINE), None),
        done: (1, 1),
    },
    Case {
        name: "a deletion of the folder between its check and its put",
        deed: Deed::DeletesFolder,
        first: 8,
        last: 8,
        standing: PUT,
        files: (Some(MINE), Some(RENAMED)),
        done: (2, 0),
    },
];

fn call_of(alloc: Global, deed: Deed) -> Result<Call, BrokenOff>
    ensures { IfOk result (λ call. names_no_blob call ≡ true) }
{
    let note = Path::Item(id_of(A)?);
    match deed {
        Deed::Edits => {
            let text = THEIRS.as_bytes().to_vec(alloc)?;
            Ok(Call::Put(note, Bytes::from_vec(text)))
        }
        Deed::Deletes => Ok(Call::Delete(note)),
        Deed::DeletesFolder => Ok(Call::Delete(Path::Item(id_of(F)?))),
    }
}

/// The script that has this call alone, right before the upload's call of this number.
fn script(alloc: Global, number: u64, call: Call) -> Result<Vec<(u64, Call)>, AllocError>
    requires { names_no_blob call ≡ true }
    ensures { IfOk result (λ script. list_all is_scriptable script.items ≡ true) }
{
    let mut script = Vec::new(alloc);
    script.push((number, call))?;
    Ok(script)
}

/// A client, and a target on which another client's call lands.
struct Crossing {
    client: Client,
    target: ScriptedTarget,
}

// Written out, so that each end of its owners calls this: a derived one is written out at each end.
impl Drop for Crossing {
    fn drop(self) {
        let Crossing {
            client: _,
            target: _,
        } = self;
    }
}

fn target_with(alloc: Global, deed: Deed, number: u64) -> Result<ScriptedTarget, BrokenOff> {
    let script = script(alloc, number, call_of(alloc, deed)?)?;
    let inner = target_of(alloc, FILES.as_slice())?;
    Ok(ScriptedTarget::new(inner, script))
}

fn make_crossing(alloc: Global, deed: Deed, number: u64) -> Result<Crossing, BrokenOff> {
    let target = target_with(alloc, deed, number)?;
    let client = Client::after(alloc, OWN, STEPS.as_slice())?;
    Ok(Crossing { client, target })
}

impl Crossing {
    /// Whether an upload does so much.
    fn does(&mut self, alloc: Global, done: (u64, u64)) -> Result<bool, BrokenOff> {
        let report = self.client.sync(alloc, &mut self.target, Part::Upload)?;
        Ok(counts(&report) == [done.0, 0, 0, 0, done.1, 0])
    }

    /// Whether the files of the note and of the folder are these.
    fn has_files(
        &self,
        note: Option<&'static str>,
        folder: Option<&'static str>,
    ) -> Result<bool, BrokenOff> {
        let tree = self.target.tree();
        Ok(holds(tree, A, note)? && holds(tree, F, folder)?)
    }

    fn has(&self, alloc: Global, standing: &Standing) -> Result<bool, BrokenOff> {
        standing.is_of(alloc, self.client.keeper.tables())
    }

    /// Whether an upload comes to what the case says.
    fn comes_to(&mut self, alloc: Global, case: &Case) -> Result<bool, BrokenOff> {
        let done = self.does(alloc, case.done)?;
        let files = self.has_files(case.files.0, case.files.1)?;
        Ok(done && files && self.has(alloc, &case.standing)?)
    }
}

impl Case {
    /// Whether this comes of the deed right before the call of this number.
    fn is_met_at(&self, alloc: Global, number: u64) -> Result<bool, BrokenOff> {
        let mut crossing = make_crossing(alloc, self.deed, number)?;
        crossing.comes_to(alloc, self)
    }

    fn is_met(&self, alloc: Global) -> Result<bool, BrokenOff> {
        for number in self.first..=self.last {
            if !self.is_met_at(alloc, number)? {
                return Ok(false);
            }
        }
        Ok(true)
    }
}

/// The name of the first of these cases that doesn't come out. None has the empty name.
fn first_other(alloc: Global, cases: &[Case]) -> Result<&'static str, BrokenOff> {
    for case in cases {
        if !case.is_met(alloc)? {
            return Ok(case.name);
        }
    }
    Ok("")
}

/// Another client's text is lost in one case alone: it was put between the check and the put.
#[test]
fn an_edit_beside_an_upload(rt: HostRuntime) -> Result<(), Fail> {
    assert_eq!(rt; first_other(rt.alloc(), &EDITS)?, "");
    Ok(())
}

#[test]
fn a_deletion_beside_an_upload(rt: HostRuntime) -> Result<(), Fail> {
    assert_eq!(rt; first_other(rt.alloc(), &DELETIONS)?, "");
    Ok(())
}

#[test]
fn a_folder_that_goes_beside_an_upload(rt: HostRuntime) -> Result<(), Fail> {
    assert_eq!(rt; first_other(rt.alloc(), &FOLDER_DELETIONS)?, "");
    Ok(())
}
