use crate::past::{BLOB, CLOCK, Deed, LOCK, NOTE, Sight, TEMP};
use crate::scene::{Move, Scene};
use crate::step::{Name, Step};
use jop_base::Dir;
use std::test::Fail;

/// The folder itself is gone, and then it is a file.
const NO_ROOT: Scene = Scene {
    moves: &[
        Move::Do(Deed::RemoveDir, ""),
        Move::Ask(Step::List(Dir::Root)),
        Move::Ask(Step::MakeDir(Dir::Root)),
        Move::See(Sight::Presence, ""),
        Move::Do(Deed::Write("a file"), ""),
        Move::Ask(Step::List(Dir::Root)),
        Move::Do(Deed::RemoveFile, ""),
        Move::Do(Deed::MakeDir, ""),
    ],
    said: "failed\nfailed\ngone\nfailed\nfaults 3\n",
};

#[test]
fn a_root_that_is_no_folder_is_a_fault(rt: HostRuntime) -> Result<(), Fail> {
    NO_ROOT.play(&rt)
}

/// The put that fails leaves no temporary file.
const DIRECTORY: Scene = Scene {
    moves: &[
        Move::Do(Deed::MakeDir, NOTE),
        Move::Ask(Step::List(Dir::Root)),
        Move::Ask(Step::Get(Name::Note)),
        Move::Ask(Step::Delete(Name::Note)),
        Move::Ask(Step::Put(Name::Note, "")),
        Move::See(Sight::Presence, TEMP),
    ],
    said: "listed\nabsent\nabsent\nfailed\ngone\nfaults 1\n",
};

#[test]
fn a_directory_is_no_file(rt: HostRuntime) -> Result<(), Fail> {
    DIRECTORY.play(&rt)
}

const DEVICE: Scene = Scene {
    moves: &[
        Move::Do(Deed::MakeDir, "/locks"),
        Move::Do(Deed::MakeLink("/dev/null"), NOTE),
        Move::Do(Deed::MakeLink("/dev/null"), LOCK),
        Move::Ask(Step::List(Dir::Root)),
        Move::Ask(Step::Get(Name::Note)),
        Move::Ask(Step::List(Dir::Locks)),
        Move::Ask(Step::Put(Name::Lock, "")),
    ],
    said: "listed\nabsent\nlisted\nfailed\nfaults 1\n",
};

#[test]
fn a_device_is_no_file(rt: HostRuntime) -> Result<(), Fail> {
    DEVICE.play(&rt)
}

const LINK: Scene = Scene {
    moves: &[
        Move::Do(Deed::Write("theirs"), "/theirs"),
        Move::Do(Deed::MakeLink("theirs"), NOTE),
        Move::Ask(Step::List(Dir::Root)),
        Move::Ask(Step::Get(Name::Note)),
        Move::Ask(Step::Delete(Name::Note)),
        Move::Ask(Step::Put(Name::Note, "hi")),
        Move::Ask(Step::Get(Name::Note)),
        Move::See(Sight::Content, "/theirs"),
    ],
    said: "listed\nabsent\nabsent\ndone\ngot [104, 105]\ntheirs\nfaults 0\n",
};

#[test]
fn a_link_is_no_file(rt: HostRuntime) -> Result<(), Fail> {
    LINK.play(&rt)
}

/// Links to another file have the names of the clock's file and of the temporary one.
const LEFTOVER: Scene = Scene {
    moves: &[
        Move::Do(Deed::Write("theirs"), "/theirs"),
        Move::Do(Deed::MakeDir, "/temp"),
        Move::Do(Deed::MakeLink("../theirs"), CLOCK),
        Move::Do(Deed::MakeLink("../theirs"), TEMP),
        Move::Ask(Step::List(Dir::Temp)),
        Move::See(Sight::Presence, CLOCK),
        Move::Ask(Step::Put(Name::Note, "")),
        Move::See(Sight::Presence, TEMP),
        Move::See(Sight::Content, "/theirs"),
    ],
    said: "listed\ngone\ndone\ngone\ntheirs\nfaults 0\n",
};

#[test]
fn a_leftover_that_bears_the_temporary_name_is_not_written(rt: HostRuntime) -> Result<(), Fail> {
    LEFTOVER.play(&rt)
}

const BLOB_PUT: Scene = Scene {
    moves: &[Move::Ask(Step::PutBlob("bytes")), Move::Ask(Step::GetBlob)],
    said: "done\ngot blob 5 [98, 121, 116, 101, 115]\nfaults 0\n",
};

#[test]
fn a_blob_is_put_and_got(rt: HostRuntime) -> Result<(), Fail> {
    BLOB_PUT.play(&rt)
}

const LONG_FILE: Scene = Scene {
    moves: &[
        Move::Do(Deed::MakeLong(1 << 40), NOTE),
        Move::Ask(Step::Get(Name::Note)),
    ],
    said: "too large 1099511627776\nfaults 0\n",
};

#[test]
fn a_file_past_its_limit_is_too_large(rt: HostRuntime) -> Result<(), Fail> {
    LONG_FILE.play(&rt)
}

const LONG_BLOB: Scene = Scene {
    moves: &[
        Move::Do(Deed::MakeDir, "/.resource"),
        Move::Do(Deed::MakeLong(67_108_865), BLOB),
        Move::Ask(Step::GetBlob),
    ],
    said: "too large 67108865 []\nfaults 0\n",
};

#[test]
fn a_blob_past_its_limit_is_too_large(rt: HostRuntime) -> Result<(), Fail> {
    LONG_BLOB.play(&rt)
}

const SHORTER_LOCK: Scene = Scene {
    moves: &[
        Move::Ask(Step::Put(Name::Lock, "longer")),
        Move::Ask(Step::Put(Name::Lock, "hi")),
        Move::Ask(Step::Get(Name::Lock)),
    ],
    said: "done\ndone\ngot [104, 105]\nfaults 0\n",
};

#[test]
fn a_shorter_lock_keeps_nothing_of_a_longer_one(rt: HostRuntime) -> Result<(), Fail> {
    SHORTER_LOCK.play(&rt)
}

const FOLDER: Scene = Scene {
    moves: &[
        Move::Ask(Step::MakeDir(Dir::Locks)),
        Move::Do(Deed::RemoveDir, "/locks"),
        Move::Do(Deed::Write("a file"), "/locks"),
        Move::Ask(Step::MakeDir(Dir::Locks)),
    ],
    said: "done\nfailed\nfaults 1\n",
};

#[test]
fn a_folder_is_made_or_the_call_has_failed(rt: HostRuntime) -> Result<(), Fail> {
    FOLDER.play(&rt)
}

/// The folder of temporary files goes between two puts, and is made again; nothing of the clock is in it.
const NO_TEMP: Scene = Scene {
    moves: &[
        Move::Ask(Step::Get(Name::Note)),
        Move::Do(Deed::RemoveDir, "/temp"),
        Move::Ask(Step::List(Dir::Root)),
        Move::See(Sight::Presence, "/temp"),
        Move::Ask(Step::Put(Name::Note, "hi")),
        Move::Do(Deed::RemoveDir, "/temp"),
        Move::Ask(Step::Put(Name::Note, "ho")),
        Move::Ask(Step::Get(Name::Note)),
    ],
    said: "absent\nlisted\ngone\ndone\ndone\ngot [104, 111]\nfaults 0\n",
};

#[test]
fn the_folder_of_temporary_files_may_go_at_any_time(rt: HostRuntime) -> Result<(), Fail> {
    NO_TEMP.play(&rt)
}

const PRIVATE: Scene = Scene {
    moves: &[
        Move::Do(Deed::Write("private"), NOTE),
        Move::Do(Deed::Hide, NOTE),
        Move::Ask(Step::Put(Name::Note, "")),
        Move::See(Sight::Rights, NOTE),
    ],
    said: "done\n600\nfaults 0\n",
};

#[test]
fn a_file_takes_the_rights_of_the_one_that_it_replaces(rt: HostRuntime) -> Result<(), Fail> {
    PRIVATE.play(&rt)
}

/// The bit that lets a program run as its owner isn't taken.
const OWNERS: Scene = Scene {
    moves: &[
        Move::Do(Deed::Write("theirs"), NOTE),
        Move::Do(Deed::LetRun, NOTE),
        Move::Ask(Step::Put(Name::Note, "hi")),
        Move::See(Sight::Rights, NOTE),
    ],
    said: "done\n755\nfaults 0\n",
};

#[test]
fn no_file_that_is_put_runs_as_its_owner(rt: HostRuntime) -> Result<(), Fail> {
    OWNERS.play(&rt)
}

/// The folder of locks is a link to another folder of the target, and so is the one of temporary files at last, which a
/// get doesn't use when there is a clock.
const LINKED_FOLDERS: Scene = Scene {
    moves: &[
        Move::Do(Deed::MakeDir, "/theirs"),
        Move::Do(Deed::MakeLink("theirs"), "/locks"),
        Move::Ask(Step::List(Dir::Locks)),
        Move::Ask(Step::MakeDir(Dir::Locks)),
        Move::Ask(Step::Put(Name::Lock, "{}")),
        Move::Ask(Step::Get(Name::Lock)),
        Move::Ask(Step::Delete(Name::Lock)),
        Move::Ask(Step::Put(Name::Note, "hi")),
        Move::Do(Deed::RemoveDir, "/temp"),
        Move::Do(Deed::MakeLink("theirs"), "/temp"),
        Move::Ask(Step::Get(Name::Note)),
        Move::Ask(Step::Put(Name::Note, "ho")),
        Move::Do(Deed::RemoveDir, "/theirs"),
    ],
    said: "failed\nfailed\nfailed\nfailed\nfailed\ndone\ngot [104, 105]\nfailed\nfaults 6\n",
};

#[test]
fn a_folder_that_is_a_link_is_a_fault(rt: HostRuntime) -> Result<(), Fail> {
    LINKED_FOLDERS.play(&rt)
}
