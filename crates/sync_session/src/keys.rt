ghost use Rattle.std.specs.Prelude.{◌≡◌};
ghost use Rattle.sync_session.specs.Keys.{IsActiveKey, RefusesKeysOr, has_waiting, is_sealed, needs_key, sealed_rows};

use conflicts::Refusal;
use jop_base::Id;
use local_store::{Content, Row, Tables};
use sync_info::Info;

/// Whether one of these rows waits to be uploaded.
fn has_waiting(rows: &[Row]) -> bool
    ensures { result ≡ has_waiting rows.now }
{
    for row in rows {
        if row.pending {
            return true;
        }
    }
    false
}

/// Whether files are to be sealed while something waits to be uploaded, so that a key is needed: none is known here.
fn needs_key(tables: &Tables) -> bool
    ensures { result ≡ needs_key tables.now }
{
    tables.info.e2ee.value && has_waiting(tables.rows.as_slice())
}

/// The key that the info names, if it names one.
fn active_key(info: &Info) -> Option<Id>
    ensures { IsActiveKey info.now.active.value result }
{
    Id::read(info.active.value.as_str().as_bytes())
}

/// Why a session can't go on with the keys of these tables, if it can't.
pub(crate) fn key_refusal(tables: &Tables) -> Option<Refusal>
    ensures { RefusesKeysOr tables.now result }
{
    if needs_key(tables) {
        return Some(Refusal::NoKey(active_key(&tables.info)));
    }
    None
}

fn is_sealed(content: &Content) -> bool
    ensures { result ≡ is_sealed content.now }
{
    match content {
        Content::Plain(_) => false,
        Content::Sealed(_) => true,
    }
}

/// How many rows are sealed.
pub(crate) fn sealed_rows(tables: &Tables) -> u64
    ensures { result ≡ sealed_rows tables.now }
{
    let mut count: u64 = 0;
    for row in tables.rows.as_slice() {
        if is_sealed(&row.content) {
            count += 1;
        }
    }
    count
}
