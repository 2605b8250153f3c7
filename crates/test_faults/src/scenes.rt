use crate::fault::Breaking;
use crate::scene::{File, Scene};

const INFO: File = File::Holds("/info.json", "{\"version\":3}");

/// An info with a key of which no password is known, by which all is to be sealed.
const SEALED_INFO: File = File::Holds(
    "/info.json",
    concat!(
        "{\"activeMasterKeyId\":",
        "{\"updatedTime\":9,\"value\":\"33333333333333333333333333333333\"},",
        "\"e2ee\":{\"updatedTime\":9,\"value\":true},\"masterKeys\":[{\"content\":\"sealed\",",
        "\"id\":\"33333333333333333333333333333333\",\"updated_time\":9}],\"version\":3}"
    ),
);

const FOLDER: File = File::Holds(
    "/ffffffffffffffffffffffffffffffff.md",
    "Home\n\nid: ffffffffffffffffffffffffffffffff\nparent_id: \ntype_: 2",
);

const TAG: File = File::Holds(
    "/cccccccccccccccccccccccccccccccc.md",
    "food\n\nid: cccccccccccccccccccccccccccccccc\nparent_id: \ntype_: 5",
);

const TAGGED: File = File::Holds(
    "/eeeeeeeeeeeeeeeeeeeeeeeeeeeeeeee.md",
    concat!(
        "id: eeeeeeeeeeeeeeeeeeeeeeeeeeeeeeee\nnote_id: aaaaaaaaaaaaaaaaaaaaaaaaaaaaaaaa\n",
        "tag_id: cccccccccccccccccccccccccccccccc\ntype_: 6"
    ),
);

const RESOURCE: File = File::Holds(
    "/dddddddddddddddddddddddddddddddd.md",
    "list.txt\n\nid: dddddddddddddddddddddddddddddddd\nmime: text/plain\nsize: 5\ntype_: 4",
);

const RESOURCE_BYTES: File = File::Holds("/.resource/dddddddddddddddddddddddddddddddd", "hello");

const NOTE: File = File::Holds(
    "/aaaaaaaaaaaaaaaaaaaaaaaaaaaaaaaa.md",
    concat!(
        "Shopping\n\n- milk\n- bread: two\n\nid: aaaaaaaaaaaaaaaaaaaaaaaaaaaaaaaa\n",
        "parent_id: ffffffffffffffffffffffffffffffff\nupdated_time: 2020-09-13T12:26:41.000Z\n",
        "x_new: kept\ntype_: 1"
    ),
);

const THEIR_NOTE: File = File::Holds(
    "/aaaaaaaaaaaaaaaaaaaaaaaaaaaaaaaa.md",
    concat!(
        "Shopping\n\n- eggs\n\nid: aaaaaaaaaaaaaaaaaaaaaaaaaaaaaaaa\n",
        "parent_id: ffffffffffffffffffffffffffffffff\ntype_: 1"
    ),
);

const OTHER_NOTE: File = File::Holds(
    "/bbbbbbbbbbbbbbbbbbbbbbbbbbbbbbbb.md",
    concat!(
        "Other\n\nid: bbbbbbbbbbbbbbbbbbbbbbbbbbbbbbbb\n",
        "parent_id: ffffffffffffffffffffffffffffffff\ntype_: 1"
    ),
);

const NO_ITEM: File = File::Holds("/99999999999999999999999999999999.md", "hello");

const SEALED_NOTE: File = File::Holds(
    "/bbbbbbbbbbbbbbbbbbbbbbbbbbbbbbbb.md",
    concat!(
        "id: bbbbbbbbbbbbbbbbbbbbbbbbbbbbbbbb\nencryption_cipher_text: JED01\n",
        "encryption_applied: 1\ntype_: 1"
    ),
);

/// A master key as an older version kept it.
const OLD_KEY: File = File::Holds(
    "/22222222222222222222222222222222.md",
    concat!(
        "\n\nid: 22222222222222222222222222222222\n",
        "updated_time: 2020-09-13T12:26:40.000Z\ncontent: abc\ntype_: 9"
    ),
);

const EDIT_AND_UNTAG: &str = "\
edit aaaaaaaaaaaaaaaaaaaaaaaaaaaaaaaa --title Shopping|- mine
untag aaaaaaaaaaaaaaaaaaaaaaaaaaaaaaaa cccccccccccccccccccccccccccccccc";

pub(crate) const NEW_CLIENT: Scene = Scene {
    name: "a sync of a new client",
    files: &[INFO, FOLDER, TAG, TAGGED, RESOURCE, RESOURCE_BYTES, NOTE],
    day: "",
    since: &[],
    evening: "",
    command: "sync mem:",
    exit: 0,
    asked: 0,
    breaking: Breaking {
        lost: 13,
        landed: 13,
        kept: 9,
        passed: 26,
    },
};

pub(crate) const EDIT: Scene = Scene {
    name: "a sync of an edit and of a tag that was removed",
    files: &[INFO, FOLDER, TAG, TAGGED, RESOURCE, RESOURCE_BYTES, NOTE],
    day: "sync mem:",
    since: &[],
    evening: EDIT_AND_UNTAG,
    command: "sync mem:",
    exit: 0,
    asked: 15,
    breaking: Breaking {
        lost: 13,
        landed: 13,
        kept: 4,
        passed: 26,
    },
};

pub(crate) const ALL_KINDS: Scene = Scene {
    name: "a sync of all kinds of work",
    files: &[INFO, FOLDER, TAG, TAGGED, RESOURCE, NOTE],
    day: "sync mem:",
    since: &[
        THEIR_NOTE,
        OTHER_NOTE,
        NO_ITEM,
        File::Gone("/dddddddddddddddddddddddddddddddd.md"),
    ],
    evening: concat!(
        "edit aaaaaaaaaaaaaaaaaaaaaaaaaaaaaaaa --title Shopping|- mine\n",
        "untag aaaaaaaaaaaaaaaaaaaaaaaaaaaaaaaa cccccccccccccccccccccccccccccccc\n",
        "mkbook Work\n",
        "attach photo.png image/png|photo"
    ),
    command: "sync mem:",
    exit: 0,
    asked: 21,
    breaking: Breaking {
        lost: 19,
        landed: 19,
        kept: 9,
        passed: 38,
    },
};

pub(crate) const SEALED: Scene = Scene {
    name: "a sync of a sealed target",
    files: &[SEALED_INFO, FOLDER, SEALED_NOTE],
    day: "",
    since: &[],
    evening: "",
    command: "sync mem:",
    exit: 0,
    asked: 0,
    breaking: Breaking {
        lost: 9,
        landed: 9,
        kept: 6,
        passed: 18,
    },
};

pub(crate) const WANTS_KEY: Scene = Scene {
    name: "a sync of a sealed target, refused for what waits",
    files: &[SEALED_INFO, FOLDER, SEALED_NOTE],
    day: "mkbook Work",
    since: &[],
    evening: "",
    command: "sync mem:",
    exit: 20,
    asked: 3,
    breaking: Breaking {
        lost: 5,
        landed: 5,
        kept: 3,
        passed: 10,
    },
};

pub(crate) const LOST_INFO: Scene = Scene {
    name: "a sync of a target whose info has lost what the client knows of it",
    files: &[SEALED_INFO, FOLDER, NOTE],
    day: "sync mem:",
    since: &[INFO],
    evening: "",
    command: "sync mem:",
    exit: 0,
    asked: 6,
    breaking: Breaking {
        lost: 10,
        landed: 10,
        kept: 2,
        passed: 20,
    },
};

pub(crate) const NEW_TARGET: Scene = Scene {
    name: "an upgrade of a new target",
    files: &[],
    day: "",
    since: &[],
    evening: "",
    command: "upgrade mem:",
    exit: 0,
    asked: 0,
    breaking: Breaking {
        lost: 16,
        landed: 16,
        kept: 2,
        passed: 32,
    },
};

pub(crate) const OLD_TARGET: Scene = Scene {
    name: "an upgrade of a target of version 1 that keeps a key in an item",
    files: &[File::Holds("/.sync/version.txt", "1"), OLD_KEY],
    day: "mkbook Home",
    since: &[],
    evening: "",
    command: "upgrade mem:",
    exit: 0,
    asked: 3,
    breaking: Breaking {
        lost: 14,
        landed: 14,
        kept: 2,
        passed: 28,
    },
};
