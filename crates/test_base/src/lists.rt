use crate::names::{ONES, id};
use jop_base::{Copied, Dir, Id, Keyed, Path, Seq};
use std::alloc::{AllocError, Global};
use std::test::Fail;

fn grown(alloc: Global) -> Result<Seq<Path>, AllocError> {
    let mut list = Seq::new(alloc);
    list.push(Path::OldVersion)?;
    list.insert(0, Path::Info)?;
    Ok(list)
}

fn is_copied(alloc: Global, list: &Seq<Path>) -> Result<bool, AllocError> {
    Ok(list.copy(alloc)? == *list)
}

/// Whether the list loses its first file, keeps the other one, and then loses it too.
fn shrinks(list: &mut Seq<Path>) -> bool {
    if list.len() != 2 || list.remove(0) != Path::Info {
        return false;
    }
    let keeps = list.as_slice() == [Path::OldVersion].as_slice();
    list.truncate(0);
    keeps && list.is_empty()
}

#[test]
fn lists_grow_in_place(rt: HostRuntime) -> Result<(), Fail> {
    let mut list = grown(rt.alloc())?;
    assert!(rt; is_copied(rt.alloc(), &list)?);
    assert!(rt; shrinks(&mut list));
    Ok(())
}

/// A number under an id.
#[derive(Clone, Copy, Debug, PartialEq, Eq)]
struct Row {
    id: Id,
    number: u8,
}

impl Keyed for Row {
    type Key = Id;

    ghost key = { λ row. row.id };

    fn key(&self) -> Id {
        self.id
    }
}

/// A number under a folder.
#[derive(Clone, Copy, Debug, PartialEq, Eq)]
struct Mark {
    dir: Dir,
    number: u8,
}

impl Keyed for Mark {
    ghost use Rattle.jop_base.specs.Paths.{dir_text};

    type Key = Dir;

    ghost key = { λ mark. dir_text mark.dir };

    fn key(&self) -> Dir {
        self.dir
    }
}

/// The rows, put one after the other.
fn rows_of(alloc: Global, numbers: &[(Id, u8)]) -> Result<Seq<Row>, AllocError> {
    let mut rows = Seq::new(alloc);
    for (id, number) in numbers {
        rows.put(Row {
            id: *id,
            number: *number,
        })?;
    }
    Ok(rows)
}

fn number_at(rows: &Seq<Row>, id: Id) -> Option<u8> {
    match rows.at(&id) {
        Some(row) => Some(row.number),
        None => None,
    }
}

fn cut_number(rows: &mut Seq<Row>, id: Id) -> Option<u8> {
    match rows.cut(&id) {
        Some(row) => Some(row.number),
        None => None,
    }
}

#[test]
fn rows_stand_by_their_ids(rt: HostRuntime) -> Result<(), Fail> {
    let first = id(ONES)?;
    let second = first.after();
    let mut rows = rows_of(rt.alloc(), &[(second, 2), (first, 1), (second, 3)])?;
    assert!(rt; rows.len() == 2 && number_at(&rows, first) == Some(1));
    assert!(rt; cut_number(&mut rows, second) == Some(3) && rows.at(&second).is_none());
    Ok(())
}

fn put_both(rows: &mut Seq<Row>, marks: &mut Seq<Mark>, id: Id) -> Result<(), AllocError> {
    let dir = Dir::Locks;
    rows.put_both(Row { id, number: 1 }, marks, Mark { dir, number: 2 })
}

fn mark_at(marks: &Seq<Mark>, dir: Dir) -> Option<u8> {
    match marks.at(&dir) {
        Some(mark) => Some(mark.number),
        None => None,
    }
}

#[test]
fn two_lists_change_together(rt: HostRuntime) -> Result<(), Fail> {
    let id = id(ONES)?;
    let mut rows = Seq::new(rt.alloc());
    let mut marks = Seq::new(rt.alloc());
    put_both(&mut rows, &mut marks, id)?;
    assert!(rt; rows.len() == 1 && mark_at(&marks, Dir::Locks) == Some(2));
    Ok(())
}
