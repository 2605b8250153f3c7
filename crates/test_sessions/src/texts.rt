/// Another client than its own.
pub(crate) const OTHER: &str = "22222222222222222222222222222222";

pub(crate) const A: &str = "aaaaaaaaaaaaaaaaaaaaaaaaaaaaaaaa";

pub(crate) const B: &str = "bbbbbbbbbbbbbbbbbbbbbbbbbbbbbbbb";

pub(crate) const C: &str = "cccccccccccccccccccccccccccccccc";

pub(crate) const OLD_A: &str = "A\n\nold\n\nid: aaaaaaaaaaaaaaaaaaaaaaaaaaaaaaaa\ntype_: 1";

pub(crate) const MY_A: &str = "A\n\nmine\n\nid: aaaaaaaaaaaaaaaaaaaaaaaaaaaaaaaa\ntype_: 1";

pub(crate) const THEIR_A: &str = "A\n\ntheirs\n\nid: aaaaaaaaaaaaaaaaaaaaaaaaaaaaaaaa\ntype_: 1";

/// My text, at another time.
pub(crate) const ALIKE_A: &str =
    "A\n\nmine\n\nid: aaaaaaaaaaaaaaaaaaaaaaaaaaaaaaaa\nupdated_time: 4\ntype_: 1";

pub(crate) const SEALED_A: &str = concat!(
    "id: aaaaaaaaaaaaaaaaaaaaaaaaaaaaaaaa\n",
    "encryption_cipher_text: JED01\n",
    "encryption_applied: 1\n",
    "type_: 1"
);

pub(crate) const OLD_B: &str = "B\n\nold\n\nid: bbbbbbbbbbbbbbbbbbbbbbbbbbbbbbbb\ntype_: 1";

pub(crate) const MY_B: &str = "B\n\nmine\n\nid: bbbbbbbbbbbbbbbbbbbbbbbbbbbbbbbb\ntype_: 1";

pub(crate) const THEIR_B: &str = "B\n\ntheirs\n\nid: bbbbbbbbbbbbbbbbbbbbbbbbbbbbbbbb\ntype_: 1";

pub(crate) const OLD_C: &str = "C\n\nold\n\nid: cccccccccccccccccccccccccccccccc\ntype_: 1";

pub(crate) const MY_C: &str = "C\n\nmine\n\nid: cccccccccccccccccccccccccccccccc\ntype_: 1";

pub(crate) const F: &str = "ffffffffffffffffffffffffffffffff";

pub(crate) const FOLDER: &str = "F\n\nid: ffffffffffffffffffffffffffffffff\ntype_: 2";

pub(crate) const RENAMED: &str = "G\n\nid: ffffffffffffffffffffffffffffffff\ntype_: 2";

/// A note in the folder.
pub(crate) const NOTE_A: &str = concat!(
    "A\n\nid: aaaaaaaaaaaaaaaaaaaaaaaaaaaaaaaa\n",
    "parent_id: ffffffffffffffffffffffffffffffff\ntype_: 1"
);

pub(crate) const EDITED_A: &str = concat!(
    "A\n\nmore\n\nid: aaaaaaaaaaaaaaaaaaaaaaaaaaaaaaaa\n",
    "parent_id: ffffffffffffffffffffffffffffffff\ntype_: 1"
);

/// Another note in the folder.
pub(crate) const NOTE_B: &str = concat!(
    "B\n\nid: bbbbbbbbbbbbbbbbbbbbbbbbbbbbbbbb\n",
    "parent_id: ffffffffffffffffffffffffffffffff\ntype_: 1"
);

pub(crate) const R: &str = "dddddddddddddddddddddddddddddddd";

pub(crate) const RESOURCE: &str = "R\n\nid: dddddddddddddddddddddddddddddddd\ntype_: 4";
