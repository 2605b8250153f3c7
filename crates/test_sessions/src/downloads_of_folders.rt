use crate::texts::{A, B, C, EDITED_A, F, FOLDER, NOTE_A, NOTE_B, OLD_A, OLD_C, RENAMED};
use std::test::Fail;
use test_client::{Case, Part, Standing, Step, first_other};

const CASES: [Case; 5] = [
    Case {
        name: "two notes in it",
        steps: &[
            Step::Take(F, FOLDER),
            Step::Take(A, NOTE_A),
            Step::Take(B, NOTE_B),
        ],
        files: &[(A, NOTE_A), (B, NOTE_B)],
        standing: Standing {
            rows: &[],
            copies: &[(A, NOTE_A), (B, NOTE_B)],
        },
        left: &[(A, NOTE_A), (B, NOTE_B)],
        counts: [0, 0, 0, 1, 2, 0],
    },
    Case {
        name: "one of them waits",
        steps: &[
            Step::Take(F, FOLDER),
            Step::Take(A, NOTE_A),
            Step::Take(B, NOTE_B),
            Step::Save(A, EDITED_A),
        ],
        files: &[(A, NOTE_A), (B, NOTE_B)],
        standing: Standing {
            rows: &[],
            copies: &[(A, EDITED_A), (B, NOTE_B)],
        },
        left: &[(A, NOTE_A), (B, NOTE_B)],
        counts: [0, 0, 0, 1, 2, 0],
    },
    Case {
        name: "its note is gone too",
        steps: &[
            Step::Take(F, FOLDER),
            Step::Take(A, NOTE_A),
            Step::Take(C, OLD_C),
        ],
        files: &[(C, OLD_C)],
        standing: Standing {
            rows: &[(C, OLD_C, false)],
            copies: &[],
        },
        left: &[(C, OLD_C)],
        counts: [0, 0, 0, 2, 0, 0],
    },
    Case {
        name: "a note that isn't in it",
        steps: &[Step::Take(F, FOLDER), Step::Take(A, OLD_A)],
        files: &[(A, OLD_A)],
        standing: Standing {
            rows: &[(A, OLD_A, false)],
            copies: &[],
        },
        left: &[(A, OLD_A)],
        counts: [0, 0, 0, 1, 0, 0],
    },
    Case {
        name: "it waits itself",
        steps: &[
            Step::Take(F, FOLDER),
            Step::Take(A, NOTE_A),
            Step::Save(F, RENAMED),
        ],
        files: &[(A, NOTE_A)],
        standing: Standing {
            rows: &[(A, NOTE_A, false), (F, RENAMED, true)],
            copies: &[],
        },
        left: &[(A, NOTE_A)],
        counts: [0, 0, 0, 0, 0, 0],
    },
];

#[test]
fn notes_leave_a_folder_that_is_gone(rt: HostRuntime) -> Result<(), Fail> {
    assert_eq!(rt; first_other(rt.alloc(), Part::Download, &CASES)?, "");
    Ok(())
}
