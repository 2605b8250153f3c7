ghost use Rattle.std.specs.Prelude.{◌≡◌, IfOk, None, OnOk};
ghost use Rattle.client.specs.Outside.{AreKeptTables};
ghost use Rattle.client.specs.Owning.{NamesClient, Owns, client_of};
ghost use Rattle.local_store.specs.Sound.{IsSound};

use crate::outside::Outside;
use crate::own_err::OwnErr;
use jop_base::{ClientId, let_go};
use local_store::{Change, Tables};
use std::alloc::Global;

/// A client, and the tables that name it.
#[derive(Drop)]
pub struct Known {
    pub client: ClientId,
    pub tables: Tables,
}

/// The tables, and the client that they name. Where they name none its id is drawn, and `Named` is committed. Nothing
/// else is changed; what is refused changes nothing.
pub fn known_client<O: Outside>(alloc: Global, outside: &mut O) -> Result<Known, OwnErr>
    ensures owns { Owns (O.now outside.old) (client_of result) (O.now outside.new) }
    ensures kept { IfOk result (λ known. AreKeptTables (O.now outside.new).keeper known.tables) }
    ensures stays { O.place outside.new ≡ O.place outside.old }
{
    let mut tables = outside.read_tables(alloc)?;
    let client = match tables.client {
        Some(client) => Ok(client),
        None => name_client(alloc, outside, &mut tables),
    };
    match client {
        Ok(client) => Ok(Known { client, tables }),
        Err(error) => {
            let_go(tables);
            Err(error)
        }
    }
}

/// Draws the client's id, and commits it.
fn name_client<O: Outside>(
    alloc: Global,
    outside: &mut O,
    tables: &mut Tables,
) -> Result<ClientId, OwnErr>
    requires kept { AreKeptTables (O.now outside.old).keeper tables.old }
    requires unnamed { NamesClient (O.now outside.old).keeper.kept None }
    ensures owns { Owns (O.now outside.old) result (O.now outside.new) }
    ensures kept { OnOk result (AreKeptTables (O.now outside.new).keeper tables.new) }
    ensures sound { IsSound tables.new }
    ensures stays { O.place outside.new ≡ O.place outside.old }
{
    let client = outside.draw_id()?;
    outside.commit(alloc, Change::Named(client))?;
    tables.client = Some(client);
    Ok(client)
}
