ghost use Rattle.std.specs.Prelude.{IfOk};
ghost use Rattle.local_store.specs.Sound.{IsAllowed};

use crate::agreeing::{tables_text, told};
use crate::file::{clear, path, remove};
use crate::made::{Parts, bytes, info, row};
use crate::thing::Thing;
use crate::trouble::Trouble;
use jop_base::{Context, Seq, Text, let_go};
use keeper::{Keeper, KeeperErr};
use keeper_records::MemKeeper;
use keeper_sqlite::keeper_at;
use local_store::{Change, Content, Tables};
use std::alloc::{AllocError, Global};
use std::test::Fail;

#[derive(Clone, Copy)]
enum Kind {
    Named,
    Saved,
    Removed,
    Uploaded,
    Dropped,
    Taken,
    TakenSealed,
    Conflict,
    Moved,
    Gone,
    Opened,
    Cleared,
    InfoIs,
    ContextIs,
}

/// A change of a kind, of what it is about, and with this text.
#[derive(Clone, Copy)]
struct Turn {
    kind: Kind,
    thing: Thing,
    text: &'static str,
}

/// Each kind is among them, with and without the row that it is about.
const TURNS: [(Kind, Thing, &str); 19] = [
    (Kind::Named, Thing::File, ""),
    (Kind::Saved, Thing::Book, ""),
    (Kind::Saved, Thing::Note, "first"),
    (Kind::Uploaded, Thing::Note, "first"),
    (Kind::TakenSealed, Thing::File, "sealed"),
    (Kind::Opened, Thing::File, "opened"),
    (Kind::Saved, Thing::Note, "second"),
    (Kind::Conflict, Thing::Note, "theirs"),
    (Kind::Moved, Thing::Note, ""),
    (Kind::Moved, Thing::Note, ""),
    (Kind::Cleared, Thing::Note, ""),
    (Kind::Removed, Thing::File, ""),
    (Kind::Removed, Thing::Book, ""),
    (Kind::Dropped, Thing::File, ""),
    (Kind::Taken, Thing::Note, "again"),
    (Kind::Gone, Thing::Note, ""),
    (Kind::InfoIs, Thing::Note, ""),
    (Kind::Saved, Thing::Note, "last"),
    (Kind::ContextIs, Thing::Note, ""),
];

impl Turn {
    fn parts(&self, sealed: bool) -> Parts<'static> {
        Parts {
            id: self.thing.id(),
            kind: self.thing.kind(),
            body: self.text,
            sealed,
        }
    }

    fn saved(&self, alloc: Global) -> Result<Change, Trouble>
        ensures { IfOk result (λ change. IsAllowed change) }
    {
        let row = row(alloc, &self.parts(false), false)?;
        let id = row.id;
        let content = row.content;
        match content {
            Content::Plain(item) => Ok(Change::Saved(id, item)),
            Content::Sealed(_) => Err(Trouble::NotRead),
        }
    }

    /// A sealed row is opened.
    fn opened(&self, alloc: Global) -> Result<Change, Trouble>
        ensures { IfOk result (λ change. IsAllowed change) }
    {
        let row = row(alloc, &self.parts(false), false)?;
        let id = row.id;
        let content = row.content;
        match content {
            Content::Plain(item) => Ok(Change::Opened(id, item)),
            Content::Sealed(_) => Err(Trouble::NotRead),
        }
    }

    /// A row as its file held it.
    fn taken(&self, alloc: Global, sealed: bool) -> Result<Change, Trouble>
        ensures { IfOk result (λ change. IsAllowed change) }
    {
        let held = bytes(alloc, b"taken")?;
        let row = row(alloc, &self.parts(sealed), true)?;
        Ok(Change::Taken(row.id, held, row.content))
    }

    /// A row that differs from its file, and is copied.
    fn conflict(&self, alloc: Global) -> Result<Change, Trouble>
        ensures { IfOk result (λ change. IsAllowed change) }
    {
        let held = bytes(alloc, b"theirs")?;
        let row = row(alloc, &self.parts(false), true)?;
        Ok(Change::Conflict(row.id, Some((held, row.content)), true))
    }

    fn uploaded(&self, alloc: Global) -> Result<Change, Trouble>
        ensures { IfOk result (λ change. IsAllowed change) }
    {
        let file = bytes(alloc, self.text.as_bytes())?;
        Ok(Change::Uploaded(self.thing.id(), file))
    }

    /// The change. That of an info and that of a context are always the same.
    fn change(&self, alloc: Global) -> Result<Change, Trouble>
        ensures { IfOk result (λ change. IsAllowed change) }
    {
        let id = self.thing.id();
        match self.kind {
            Kind::Named => Ok(Change::Named(id)),
            Kind::Saved => self.saved(alloc),
            Kind::Removed => Ok(Change::Removed(id)),
            Kind::Uploaded => self.uploaded(alloc),
            Kind::Dropped => Ok(Change::Dropped(id)),
            Kind::Taken => self.taken(alloc, false),
            Kind::TakenSealed => self.taken(alloc, true),
            Kind::Conflict => self.conflict(alloc),
            Kind::Moved => Ok(Change::Moved(id)),
            Kind::Gone => Ok(Change::Gone(id)),
            Kind::Opened => self.opened(alloc),
            Kind::Cleared => Ok(Change::Cleared(1)),
            Kind::InfoIs => info_change(alloc),
            Kind::ContextIs => Ok(Change::ContextIs(context(alloc)?)),
        }
    }

    /// What tables hold once the change was made.
    fn told_by_tables(&self, alloc: Global, tables: &mut Tables) -> Result<String, Trouble> {
        let change = self.change(alloc)?;
        apply(alloc, tables, change)?;
        Ok(tables_text(alloc, tables)?)
    }

    fn make<K: Keeper>(&self, alloc: Global, keeper: &mut K) -> Result<(), Trouble> {
        let change = self.change(alloc)?;
        Ok(commit(alloc, keeper, change)?)
    }

    /// What a keeper reads once the change was made.
    fn told<K: Keeper>(&self, alloc: Global, keeper: &mut K) -> Result<String, Trouble> {
        self.make(alloc, keeper)?;
        Ok(told(alloc, keeper)?)
    }

    /// What a keeper in a file reads once the change was made, with the file opened anew.
    fn told_by_file(&self, rt: &HostRuntime, path: &Text) -> Result<String, Trouble> {
        let path = Text::of(rt.alloc(), path.as_str())?;
        let mut file = keeper_at(*rt, path);
        self.told(rt.alloc(), &mut file)
    }
}

fn commit<K: Keeper>(alloc: Global, keeper: &mut K, change: Change) -> Result<(), KeeperErr>
    requires { IsAllowed change }
{
    let answer = keeper.commit(alloc, &change);
    let_go(change);
    answer
}

fn apply(alloc: Global, tables: &mut Tables, change: Change) -> Result<(), AllocError> {
    let answer = tables.apply(alloc, &change);
    let_go(change);
    answer
}

fn info_change(alloc: Global) -> Result<Change, Trouble>
    ensures { IfOk result (λ change. IsAllowed change) }
{
    let info = info(alloc, 3)?;
    Ok(Change::InfoIs(info))
}

fn context(alloc: Global) -> Result<Context, AllocError> {
    let mut seen = Seq::new(alloc);
    seen.push(Thing::Note.id())?;
    seen.push(Thing::File.id())?;
    Ok(Context {
        moment: 1_600_000_000_000,
        seen,
    })
}

/// Tables, a keeper in memory, and the file of another.
struct Keepers {
    tables: Tables,
    memory: MemKeeper,
    path: Text,
}

// Written out, so that each end of its owners calls this: a derived one is written out at each end.
impl Drop for Keepers {
    fn drop(self) {
        let Keepers {
            tables,
            memory,
            path: _,
        } = self;
        let_go(tables);
        let_go(memory);
    }
}

impl Keepers {
    fn new(rt: &HostRuntime) -> Result<Keepers, Trouble> {
        clear(rt)?;
        let path = path(rt)?;
        Ok(Keepers {
            tables: Tables::new(rt.alloc()),
            memory: MemKeeper::new(rt.alloc()),
            path,
        })
    }

    /// Whether both keepers read what the tables hold once a change was made.
    fn are_same(&mut self, rt: &HostRuntime, turn: &Turn) -> Result<bool, Trouble> {
        let wanted = turn.told_by_tables(rt.alloc(), &mut self.tables)?;
        Ok(
            turn.told(rt.alloc(), &mut self.memory)? == wanted
                && turn.told_by_file(rt, &self.path)? == wanted,
        )
    }

    /// How many of the changes come to the same, until one doesn't.
    fn count_same(&mut self, rt: &HostRuntime) -> Result<usize, Trouble> {
        for (count, (kind, thing, text)) in TURNS.into_iter().enumerate() {
            if !self.are_same(rt, &Turn { kind, thing, text })? {
                return Ok(count);
            }
        }
        Ok(TURNS.len())
    }
}

fn count_same(rt: &HostRuntime) -> Result<usize, Trouble> {
    let mut keepers = Keepers::new(rt)?;
    keepers.count_same(rt)
}

#[test]
fn each_change_comes_to_the_same_tables(rt: HostRuntime) -> Result<(), Fail> {
    assert_eq!(rt; count_same(&rt)?, 19);
    Ok(remove(&rt)?)
}
