ghost use Rattle.std.specs.Prelude.{◌≡◌, IfOk, OnErr, true};
ghost use Rattle.law_licences.specs.Checks.{is_pending};
ghost use Rattle.local_store.specs.Tables.{row_at};
ghost use Rattle.session.specs.Findings.{waiting};

use jop_base::{Copied, Id};
use local_store::{Row, Tables};
use std::alloc::{AllocError, Global};

/// The row of this id, if it waits to be uploaded.
pub fn waiting_row(alloc: Global, tables: &Tables, id: &Id) -> Result<Option<Row>, AllocError>
    ensures row { IfOk result (λ row. row ≡ waiting (row_at tables.now id.now)) }

    // Where none waits it takes no memory.
    ensures memory { OnErr result (is_pending (row_at tables.now id.now) ≡ true) }
{
    match tables.rows.at(id) {
        Some(row) if row.pending => Ok(Some(row.copy(alloc)?)),
        _ => Ok(None),
    }
}
