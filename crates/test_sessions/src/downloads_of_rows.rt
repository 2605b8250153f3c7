use crate::texts::{A, ALIKE_A, B, MY_A, OLD_A, OLD_B, SEALED_A, THEIR_A};
use std::test::Fail;
use test_client::{Case, Part, Standing, Step, first_other};

const KEY: &str = "id: aaaaaaaaaaaaaaaaaaaaaaaaaaaaaaaa\ncontent: x\ntype_: 9";

const NEW_FILES: [Case; 4] = [
    Case {
        name: "a new note",
        steps: &[],
        files: &[(A, OLD_A)],
        standing: Standing {
            rows: &[(A, OLD_A, false)],
            copies: &[],
        },
        left: &[(A, OLD_A)],
        counts: [0, 0, 1, 0, 0, 0],
    },
    Case {
        name: "a note that is sealed",
        steps: &[],
        files: &[(A, SEALED_A)],
        standing: Standing {
            rows: &[(A, SEALED_A, false)],
            copies: &[],
        },
        left: &[(A, SEALED_A)],
        counts: [0, 0, 1, 0, 0, 0],
    },
    Case {
        name: "a file that is no item",
        steps: &[],
        files: &[(A, "hello")],
        standing: Standing {
            rows: &[],
            copies: &[],
        },
        left: &[(A, "hello")],
        counts: [0, 0, 0, 0, 0, 1],
    },
    Case {
        name: "a notebook's key",
        steps: &[],
        files: &[(A, KEY)],
        standing: Standing {
            rows: &[],
            copies: &[],
        },
        left: &[(A, KEY)],
        counts: [0, 0, 0, 0, 0, 0],
    },
];

const KNOWN_FILES: [Case; 4] = [
    Case {
        name: "a note as it was",
        steps: &[Step::Take(A, OLD_A)],
        files: &[(A, OLD_A)],
        standing: Standing {
            rows: &[(A, OLD_A, false)],
            copies: &[],
        },
        left: &[(A, OLD_A)],
        counts: [0, 0, 0, 0, 0, 0],
    },
    Case {
        name: "a note that was edited there",
        steps: &[Step::Take(A, OLD_A)],
        files: &[(A, THEIR_A)],
        standing: Standing {
            rows: &[(A, THEIR_A, false)],
            copies: &[],
        },
        left: &[(A, THEIR_A)],
        counts: [0, 0, 1, 0, 0, 0],
    },
    Case {
        name: "a note whose file is no item any more",
        steps: &[Step::Take(A, OLD_A)],
        files: &[(A, "hello")],
        standing: Standing {
            rows: &[(A, OLD_A, false)],
            copies: &[],
        },
        left: &[(A, "hello")],
        counts: [0, 0, 0, 0, 0, 1],
    },
    Case {
        name: "a note that is gone",
        steps: &[Step::Take(A, OLD_A), Step::Take(B, OLD_B)],
        files: &[(B, OLD_B)],
        standing: Standing {
            rows: &[(B, OLD_B, false)],
            copies: &[],
        },
        left: &[(B, OLD_B)],
        counts: [0, 0, 0, 1, 0, 0],
    },
];

const WAITING: [Case; 6] = [
    Case {
        name: "an edited note whose file is as it was",
        steps: &[Step::Take(A, OLD_A), Step::Save(A, MY_A)],
        files: &[(A, OLD_A)],
        standing: Standing {
            rows: &[(A, MY_A, true)],
            copies: &[],
        },
        left: &[(A, OLD_A)],
        counts: [0, 0, 0, 0, 0, 0],
    },
    Case {
        name: "an edited note that was edited there too",
        steps: &[Step::Take(A, OLD_A), Step::Save(A, MY_A)],
        files: &[(A, THEIR_A)],
        standing: Standing {
            rows: &[(A, THEIR_A, false)],
            copies: &[(A, MY_A)],
        },
        left: &[(A, THEIR_A)],
        counts: [0, 0, 0, 0, 1, 0],
    },
    Case {
        name: "an edited note that was edited alike",
        steps: &[Step::Take(A, OLD_A), Step::Save(A, MY_A)],
        files: &[(A, ALIKE_A)],
        standing: Standing {
            rows: &[(A, ALIKE_A, false)],
            copies: &[],
        },
        left: &[(A, ALIKE_A)],
        counts: [0, 0, 0, 0, 0, 0],
    },
    Case {
        name: "a new note whose put was never told",
        steps: &[Step::Save(A, MY_A)],
        files: &[(A, MY_A)],
        standing: Standing {
            rows: &[(A, MY_A, false)],
            copies: &[],
        },
        left: &[(A, MY_A)],
        counts: [0, 0, 0, 0, 0, 0],
    },
    Case {
        name: "an edited note whose file is gone",
        steps: &[Step::Take(A, OLD_A), Step::Save(A, MY_A)],
        files: &[(B, OLD_B)],
        standing: Standing {
            rows: &[(A, MY_A, true), (B, OLD_B, false)],
            copies: &[],
        },
        left: &[(B, OLD_B)],
        counts: [0, 0, 1, 0, 0, 0],
    },
    Case {
        name: "an edited note whose file is no item",
        steps: &[Step::Take(A, OLD_A), Step::Save(A, MY_A)],
        files: &[(A, "hello")],
        standing: Standing {
            rows: &[(A, MY_A, true)],
            copies: &[],
        },
        left: &[(A, "hello")],
        counts: [0, 0, 0, 0, 0, 1],
    },
];

#[test]
fn new_files_are_taken(rt: HostRuntime) -> Result<(), Fail> {
    assert_eq!(rt; first_other(rt.alloc(), Part::Download, &NEW_FILES)?, "");
    Ok(())
}

#[test]
fn rows_follow_their_files(rt: HostRuntime) -> Result<(), Fail> {
    assert_eq!(rt; first_other(rt.alloc(), Part::Download, &KNOWN_FILES)?, "");
    Ok(())
}

#[test]
fn rows_that_wait_are_not_taken_over(rt: HostRuntime) -> Result<(), Fail> {
    assert_eq!(rt; first_other(rt.alloc(), Part::Download, &WAITING)?, "");
    Ok(())
}
