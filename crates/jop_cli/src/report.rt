ghost use Rattle.std.specs.Prelude.{Ok};
ghost use Rattle.jop_cli.specs.Commands.Sync.{bad_text, counts_text, report_text};
ghost use Rattle.jop_outside.specs.Writing.{WritesAll};
ghost use Rattle.jop_status.specs.Outcomes.{Emits};

use conflicts::SyncReport;
use jop_base::Id;
use jop_outside::{Failed, Sink};
use jop_status::{Piece, Status, write_pieces};

/// Prints what a sync has done.
pub(crate) fn emit_report<O: Sink>(out: &mut O, report: &SyncReport) -> Status
    ensures { Emits (Ok (report_text report.now)) (O.state out.old) result (O.state out.new) }
{
    match write_report(out, report) {
        Ok(()) => Status::Ok,
        Err(_) => Status::SinkFault,
    }
}

/// Writes the items whose files can't be read, and then the counts.
fn write_report<O: Sink>(out: &mut O, report: &SyncReport) -> Result<(), Failed>
    ensures { WritesAll (O.state out.old) (report_text report.now) result (O.state out.new) }
{
    write_bad(out, report.bad.as_slice())?;
    write_counts(out, report)
}

/// Writes a line for each item whose file can't be read.
fn write_bad<O: Sink>(out: &mut O, ids: &[Id]) -> Result<(), Failed>
    ensures { WritesAll (O.state out.old) (bad_text ids.now) result (O.state out.new) }
{
    for id in ids {
        write_pieces(
            out,
            &[Piece::Word("bad "), Piece::Id(*id), Piece::Word("\n")],
        )?;
    }
    Ok(())
}

/// Writes a line for each count.
fn write_counts<O: Sink>(out: &mut O, report: &SyncReport) -> Result<(), Failed>
    ensures { WritesAll (O.state out.old) (counts_text report.now) result (O.state out.new) }
{
    write_pieces(
        out,
        &[
            Piece::Word("put "),
            Piece::Number(report.put),
            Piece::Word("\nremoved "),
            Piece::Number(report.removed),
            Piece::Word("\ntaken "),
            Piece::Number(report.taken),
            Piece::Word("\ngone "),
            Piece::Number(report.gone),
            Piece::Word("\nconflicts "),
            Piece::Number(report.conflicts),
            Piece::Word("\nbad "),
            Piece::Number(report.bad.len() as u64),
            Piece::Word("\nlocked "),
            Piece::Number(report.locked),
            Piece::Word("\n"),
        ],
    )
}
