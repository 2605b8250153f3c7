use crate::texts::{A, B, EDITED_A, F, FOLDER, NOTE_A, NOTE_B, RENAMED};
use std::test::Fail;
use test_client::{Case, Part, Standing, Step, first_other};

/// A folder was renamed whose file is gone.
const CASES: [Case; 2] = [
    Case {
        name: "notes leave it",
        steps: &[
            Step::Take(A, NOTE_A),
            Step::Take(B, NOTE_B),
            Step::Take(F, FOLDER),
            Step::Save(F, RENAMED),
        ],
        files: &[(A, NOTE_A), (B, NOTE_B)],
        standing: Standing {
            rows: &[],
            copies: &[(A, NOTE_A), (B, NOTE_B)],
        },
        left: &[(A, NOTE_A), (B, NOTE_B)],
        counts: [0, 0, 0, 0, 2, 0],
    },
    Case {
        name: "an edited note is put before it leaves",
        steps: &[
            Step::Take(A, NOTE_A),
            Step::Take(F, FOLDER),
            Step::Save(A, EDITED_A),
            Step::Save(F, RENAMED),
        ],
        files: &[(A, NOTE_A)],
        standing: Standing {
            rows: &[],
            copies: &[(A, EDITED_A)],
        },
        left: &[(A, EDITED_A)],
        counts: [1, 0, 0, 0, 1, 0],
    },
];

#[test]
fn notes_leave_a_folder_that_is_gone(rt: HostRuntime) -> Result<(), Fail> {
    assert_eq!(rt; first_other(rt.alloc(), Part::Upload, &CASES)?, "");
    Ok(())
}
