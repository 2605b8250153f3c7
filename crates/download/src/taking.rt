ghost use Rattle.std.specs.Prelude.{◌≡◌};
ghost use Rattle.download.specs.Asked.{AsksForAll, EndsIfAsked, EndsMet, EndsShown, IsGot};
ghost use Rattle.download.specs.Taking.{MeetsFound, TakesOne, is_key_item, is_taking, met_by};
ghost use Rattle.law_licences.specs.Views.{Shown};
ghost use Rattle.local_store.specs.Rows.{item_of};
ghost use Rattle.session.specs.Parts.{ForEach};
ghost use Rattle.session.specs.Work.{IsAtWork};
ghost use Rattle.session.specs.declared.finding.Finding.TheVariants.{Other};

use conflicts::{StepErr, conflict_change};
use item_kinds::Kind;
use jop_base::{Bytes, Id, let_go};
use local_store::{Change, Content, Row, has_kind};
use session::{Finding, Session, fetch_bytes_of, waiting_row};
use std::alloc::Global;

/// The change by which a file is met: a row that waits gives way to it, and else it is taken.
fn met_by(id: &Id, remote: (Bytes, Content), waiting: Option<Row>) -> Change
    ensures { result ≡ met_by id.now remote waiting }
{
    match waiting {
        Some(row) => {
            let change = conflict_change(&row, Some(remote));
            let_go(row);
            change
        }
        None => Change::Taken(*id, remote.0, remote.1),
    }
}

/// Takes what a file holds, unless the row of its id waits: then that gives way. Of a resource the bytes come first, so
/// that those that are kept are the ones of the item that the row then has.
fn meet<W: Session>(
    alloc: Global,
    s: &mut W,
    id: &Id,
    remote: (Bytes, Content),
) -> Result<(), StepErr>
    requires ready { IsAtWork (W.now s.old) }
    requires got { IsGot id.now (Other remote) (W.now s.old).site }

    ensures ends { EndsMet id.now remote (W.now s.old) result (W.now s.new) }
{
    fetch_bytes_of(alloc, s, id, &remote.1)?;
    let waiting = waiting_row(alloc, s.tables(), id)?;
    s.make_shown(alloc, met_by(id, remote, waiting))
}

/// Whether this is a notebook's key.
fn is_key(content: &Content) -> bool
    ensures { result ≡ is_key_item (item_of content.now) }
{
    has_kind(content.item(), Kind::MASTER_KEY)
}

/// Does with a file what it asks for. A notebook's key is passed over.
fn read<W: Session>(alloc: Global, s: &mut W, id: &Id, finding: Finding) -> Result<(), StepErr>
    requires ready { IsAtWork (W.now s.old) }
    requires got { IsGot id.now finding (W.now s.old).site }

    ensures ends { EndsIfAsked id.now (MeetsFound id.now finding) (W.now s.old) result (W.now s.new) }
{
    match finding {
        Finding::Other(remote) => {
            if is_key(&remote.1) {
                return Ok(());
            }
            meet(alloc, s, id, remote)
        }
        Finding::Same => Ok(()),
        Finding::Missing => Ok(()),
        Finding::Unreadable => Ok(()),
    }
}

/// Gets a new file, and does what it asks for.
fn take_one<W: Session>(alloc: Global, s: &mut W, id: &Id) -> Result<(), StepErr>
    requires ready { IsAtWork (W.now s.old) }

    ensures ends { EndsIfAsked id.now (TakesOne id.now) (W.now s.old) result (W.now s.new) }
{
    let finding = s.find(alloc, id)?;
    read(alloc, s, id, finding)
}

/// Gets these files one after the other, which the session's last listing asks for, and does with
/// each what it asks for.
pub(crate) fn take_listed<W: Session>(alloc: Global, s: &mut W, ids: &[Id]) -> Result<(), StepErr>
    requires ready { IsAtWork (W.now s.old) }
    requires asked { (known : Shown) × AsksForAll ids.now known }

    ensures ends { EndsShown (AsksForAll ids.now) is_taking (ForEach TakesOne ids.now)
        (W.now s.old) result (W.now s.new) }
{
    for index in 0..ids.len() {
        take_one(alloc, s, &ids[index])?;
    }
    Ok(())
}
