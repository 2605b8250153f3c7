ghost use Rattle.std.specs.Prelude.{◌≡◌, length};
ghost use Rattle.jop_watch.specs.Progress.{count_waiting};

use local_store::Tables;

/// How many rows and deletions of the tables wait to be sent.
#[derive(Clone, Copy, Debug, PartialEq, Eq)]
pub struct Waiting {
    pub rows: u64,
    pub deletions: u64,
}

impl Waiting {
    pub fn none() -> Waiting
        ensures { result ≡ record { rows = 0; deletions = 0 } }
    {
        Waiting {
            rows: 0,
            deletions: 0,
        }
    }

    pub fn of(tables: &Tables) -> Waiting
        ensures rows { result.rows ≡ count_waiting tables.now.rows }
        ensures deletions { result.deletions ≡ length tables.now.deletions }
    {
        let mut rows: u64 = 0;
        for row in tables.rows.as_slice() {
            if row.pending {
                rows += 1;
            }
        }
        Waiting {
            rows,
            deletions: tables.deletions.as_slice().len() as u64,
        }
    }
}
