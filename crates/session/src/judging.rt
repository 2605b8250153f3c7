ghost use Rattle.std.specs.Prelude.{◌≡◌, IfOk, OnOk};
ghost use Rattle.local_store.specs.Tables.{base_of, row_at};
ghost use Rattle.session.specs.Findings.{Judges, with_found};

use crate::finding::{Finding, find};
use conflicts::SyncReport;
use jop_base::{Bytes, Id};
use jop_target::Reply;
use local_store::Tables;
use std::alloc::{AllocError, Global};

/// Notes a file that can't be read.
fn note(report: &mut SyncReport, id: &Id, finding: &Finding) -> Result<(), AllocError>
    ensures { OnOk result (report.new ≡ with_found report.old id.now finding.now) }
{
    match finding {
        Finding::Unreadable => report.add_bad(*id),
        Finding::Same => Ok(()),
        Finding::Other(_) => Ok(()),
        Finding::Missing => Ok(()),
    }
}

/// How the file of this id stands to a row with this base, by the reply to a get of it. If it can't
/// be read, that is noted.
fn judge(
    alloc: Global,
    report: &mut SyncReport,
    id: &Id,
    base: &Option<Bytes>,
    reply: &Reply,
) -> Result<Finding, AllocError>
    ensures judges { IfOk result (Judges id.now base.now reply.now) }
    ensures noted { IfOk result (λ finding. report.new ≡ with_found report.old id.now finding) }
{
    let finding = find(alloc, id, base, reply)?;
    note(report, id, &finding)?;
    Ok(finding)
}

/// How the file of this id stands to its row, by the reply to a get of it. If it can't be read, that is noted.
pub(crate) fn judge_row(
    alloc: Global,
    report: &mut SyncReport,
    tables: &Tables,
    id: &Id,
    reply: &Reply,
) -> Result<Finding, AllocError>
    ensures judges { IfOk result
        (Judges id.now (base_of (row_at tables.now id.now)) reply.now) }
    ensures noted { IfOk result (λ finding. report.new ≡ with_found report.old id.now finding) }
{
    match tables.rows.at(id) {
        Some(row) => judge(alloc, report, id, &row.base, reply),
        None => judge(alloc, report, id, &None, reply),
    }
}
