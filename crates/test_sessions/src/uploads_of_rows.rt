use crate::texts::{A, ALIKE_A, MY_A, OLD_A, SEALED_A, THEIR_A};
use std::test::Fail;
use test_client::{Case, Part, Standing, Step, first_other};

const OLD_TAG: &str = "old\n\nid: aaaaaaaaaaaaaaaaaaaaaaaaaaaaaaaa\ntype_: 5";

const MY_TAG: &str = "mine\n\nid: aaaaaaaaaaaaaaaaaaaaaaaaaaaaaaaa\ntype_: 5";

const THEIR_TAG: &str = "theirs\n\nid: aaaaaaaaaaaaaaaaaaaaaaaaaaaaaaaa\ntype_: 5";

/// The row is mine, and waits no more.
const PUT: Standing = Standing {
    rows: &[(A, MY_A, false)],
    copies: &[],
};

const UNCHANGED_FILES: [Case; 3] = [
    Case {
        name: "a new note",
        steps: &[Step::Save(A, MY_A)],
        files: &[],
        standing: PUT,
        left: &[(A, MY_A)],
        counts: [1, 0, 0, 0, 0, 0],
    },
    Case {
        name: "an edited note",
        steps: &[Step::Take(A, OLD_A), Step::Save(A, MY_A)],
        files: &[(A, OLD_A)],
        standing: PUT,
        left: &[(A, MY_A)],
        counts: [1, 0, 0, 0, 0, 0],
    },
    Case {
        name: "a new note whose put was never told",
        steps: &[Step::Save(A, MY_A)],
        files: &[(A, MY_A)],
        standing: PUT,
        left: &[(A, MY_A)],
        counts: [0, 0, 0, 0, 0, 0],
    },
];

const LOST_FILES: [Case; 2] = [
    Case {
        name: "an edited note whose file is gone",
        steps: &[Step::Take(A, OLD_A), Step::Save(A, MY_A)],
        files: &[],
        standing: Standing {
            rows: &[],
            copies: &[(A, MY_A)],
        },
        left: &[],
        counts: [0, 0, 0, 0, 1, 0],
    },
    Case {
        name: "a note whose file is no item",
        steps: &[Step::Save(A, MY_A)],
        files: &[(A, "hello")],
        standing: Standing {
            rows: &[(A, MY_A, true)],
            copies: &[],
        },
        left: &[(A, "hello")],
        counts: [0, 0, 0, 0, 0, 1],
    },
];

/// Nothing is put over them.
const OTHER_FILES: [Case; 4] = [
    Case {
        name: "a note that was edited there too",
        steps: &[Step::Take(A, OLD_A), Step::Save(A, MY_A)],
        files: &[(A, THEIR_A)],
        standing: Standing {
            rows: &[(A, THEIR_A, false)],
            copies: &[(A, MY_A)],
        },
        left: &[(A, THEIR_A)],
        counts: [0, 0, 0, 0, 1, 0],
    },
    Case {
        name: "a note that is sealed there",
        steps: &[Step::Take(A, OLD_A), Step::Save(A, MY_A)],
        files: &[(A, SEALED_A)],
        standing: Standing {
            rows: &[(A, SEALED_A, false)],
            copies: &[(A, MY_A)],
        },
        left: &[(A, SEALED_A)],
        counts: [0, 0, 0, 0, 1, 0],
    },
    Case {
        name: "a note that was edited alike",
        steps: &[Step::Take(A, OLD_A), Step::Save(A, MY_A)],
        files: &[(A, ALIKE_A)],
        standing: Standing {
            rows: &[(A, ALIKE_A, false)],
            copies: &[],
        },
        left: &[(A, ALIKE_A)],
        counts: [0, 0, 0, 0, 0, 0],
    },
    Case {
        name: "a tag",
        steps: &[Step::Take(A, OLD_TAG), Step::Save(A, MY_TAG)],
        files: &[(A, THEIR_TAG)],
        standing: Standing {
            rows: &[(A, THEIR_TAG, false)],
            copies: &[],
        },
        left: &[(A, THEIR_TAG)],
        counts: [0, 0, 0, 0, 0, 0],
    },
];

#[test]
fn rows_over_their_own_files_are_put(rt: HostRuntime) -> Result<(), Fail> {
    assert_eq!(rt;
        first_other(rt.alloc(), Part::Upload, &UNCHANGED_FILES)?,
        ""
    );
    Ok(())
}

#[test]
fn rows_without_a_readable_file_are_not_put(rt: HostRuntime) -> Result<(), Fail> {
    assert_eq!(rt; first_other(rt.alloc(), Part::Upload, &LOST_FILES)?, "");
    Ok(())
}

#[test]
fn rows_give_way_to_other_files(rt: HostRuntime) -> Result<(), Fail> {
    assert_eq!(rt; first_other(rt.alloc(), Part::Upload, &OTHER_FILES)?, "");
    Ok(())
}
