use jop_base::{Dir, Id, LockKind, LockName, Path};
use std::alloc::{AllocError, Global};
use std::cmp::Ordering;
use std::fmt::Display;
use std::test::Fail;

pub const ONES: &[u8] = b"11111111111111111111111111111111";

const LOCK: &[u8] = b"2_3_11111111111111111111111111111111.json";

fn read_id(text: &[u8]) -> Option<Id> {
    Id::read(text)
}

pub fn id(text: &[u8]) -> Result<Id, Fail> {
    Ok(read_id(text).ok_or("an id")?)
}

const NEXT_IDS: [(&[u8], &str); 3] = [
    (ONES, "11111111111111111111111111111112"),
    (
        b"0000000000000000000000000000009f",
        "000000000000000000000000000000a0",
    ),
    (
        b"ffffffffffffffffffffffffffffffff",
        "00000000000000000000000000000000",
    ),
];

#[test]
fn ids_count_up(rt: HostRuntime) -> Result<(), Fail> {
    for (text, next) in NEXT_IDS {
        assert_eq!(rt; id(text)?.after().as_str(), next);
    }
    Ok(())
}

#[test]
fn an_id_has_32_lower_case_digits(rt: HostRuntime) {
    assert!(rt; Id::read(b"AAAAAAAAAAAAAAAAAAAAAAAAAAAAAAAA").is_none());
    assert!(rt; Id::read(b"1").is_none());
}

fn read_lock(name: &[u8]) -> Option<LockName> {
    LockName::read(name)
}

fn lock() -> Result<LockName, Fail> {
    Ok(read_lock(LOCK).ok_or("a lock")?)
}

/// A file of each kind, in their order.
fn files_of(id: Id, lock: LockName) -> [Path; 7] {
    [
        Path::Blob(id),
        Path::OldVersion,
        Path::Item(id),
        Path::Tomb(id),
        Path::Info,
        Path::Lock(lock),
        Path::Temp(id),
    ]
}

fn files() -> Result<[Path; 7], Fail> {
    Ok(files_of(id(ONES)?, lock()?))
}

const TEXTS: [&str; 7] = [
    ".resource/11111111111111111111111111111111",
    ".sync/version.txt",
    "11111111111111111111111111111111.md",
    "deleted/11111111111111111111111111111111",
    "info.json",
    "locks/2_3_11111111111111111111111111111111.json",
    "temp/11111111111111111111111111111111.tmp",
];

#[test]
fn each_file_has_its_text(rt: HostRuntime) -> Result<(), Fail> {
    let alloc = rt.alloc();
    for (path, text) in files()?.iter().zip(TEXTS) {
        assert_eq!(rt; path.text(alloc)?.as_str(), text);
        assert_eq!(rt; path.to_string(alloc)?.as_str(), text);
    }
    Ok(())
}

#[test]
fn each_file_is_read_back(rt: HostRuntime) -> Result<(), Fail> {
    let alloc = rt.alloc();
    for path in &files()? {
        let name = path.file_name(alloc)?;
        assert_eq!(rt; Path::read(path.dir(), name.as_slice()), Some(*path));
    }
    Ok(())
}

#[test]
fn each_file_is_read_from_its_text(rt: HostRuntime) -> Result<(), Fail> {
    for (path, text) in files()?.iter().zip(TEXTS) {
        assert_eq!(rt; Path::of_text(text.as_bytes()), Some(*path));
    }
    Ok(())
}

const OTHER_TEXTS: [&str; 5] = [
    "",
    "deleted",
    "deleted/1",
    "/info.json",
    "locks/11111111111111111111111111111111.md",
];

#[test]
fn other_texts_are_no_files(rt: HostRuntime) {
    for text in OTHER_TEXTS {
        assert!(rt; Path::of_text(text.as_bytes()).is_none());
    }
}

#[test]
fn each_folder_is_found_by_what_stands_before_its_files(rt: HostRuntime) {
    for dir in Dir::ALL {
        assert_eq!(rt; Dir::of_prefix(dir.prefix().as_bytes()), Some(dir));
    }
    assert!(rt; Dir::of_prefix(b"locks").is_none());
}

#[test]
fn other_names_are_no_files(rt: HostRuntime) {
    let table = [
        (
            Dir::Locks,
            b"3_3_11111111111111111111111111111111.json".as_slice(),
        ),
        (Dir::Root, b".sync/version.txt".as_slice()),
    ];
    for (dir, name) in table {
        assert!(rt; Path::read(dir, name).is_none());
    }
}

/// Whether each of them comes before the next.
fn are_in_order(files: &[Path]) -> bool {
    for pair in files.windows(2) {
        if pair[0].compare(&pair[1]) != Ordering::Less {
            return false;
        }
    }
    true
}

#[test]
fn files_are_in_order(rt: HostRuntime) -> Result<(), Fail> {
    let id = id(ONES)?;
    assert!(rt; are_in_order(&files()?));
    assert!(rt; are_in_order(&[Path::Item(id), Path::Item(id.after())]));
    Ok(())
}

/// An item whose id begins as the name of the folder of deletions does, the record of one, and an item behind both.
fn around_a_record() -> Result<[Path; 3], Fail> {
    let before = id(b"deffffffffffffffffffffffffffffff")?;
    let behind = id(b"df000000000000000000000000000000")?;
    Ok([
        Path::Item(before),
        Path::Tomb(id(ONES)?),
        Path::Item(behind),
    ])
}

#[test]
fn a_record_of_a_deletion_stands_among_the_items(rt: HostRuntime) -> Result<(), Fail> {
    assert!(rt; are_in_order(&around_a_record()?));
    Ok(())
}

pub fn prints<T: Display>(alloc: Global, value: &T, text: &[u8]) -> Result<bool, AllocError> {
    Ok(value.to_string(alloc)?.as_bytes() == text)
}

#[test]
fn names_print_as_their_texts(rt: HostRuntime) -> Result<(), Fail> {
    let alloc = rt.alloc();
    let lock = lock()?;
    assert!(rt; lock.kind == LockKind::Exclusive);
    assert!(rt; prints(alloc, &lock, LOCK)?);
    assert!(rt; prints(alloc, &Dir::Resources, b".resource")?);
    assert!(rt; prints(alloc, &id(ONES)?, ONES)?);
    Ok(())
}
