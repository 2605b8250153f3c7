ghost use Rattle.std.specs.Prelude.{◌≡◌, ◌++◌, Ok};
ghost use Rattle.jop_cli.specs.Commands.Sync.{report_text};
ghost use Rattle.client.specs.Outside.{AreKeptTables};
ghost use Rattle.jop_cli.specs.Worlds.{EmitsTo, RanCheck, RanSync, RanUpgrade};
ghost use Rattle.jop_status.specs.Pieces.{pieces_text};
ghost use Rattle.key_commands.specs.Running.{RunsKeys};

use crate::report::emit_report;
use client::{Around, Outside};
use conflicts::SyncReport;
use jop_base::{Bytes, ClientId};
use jop_outside::{Clock, Entropy, Sink, Source};
use jop_status::{Piece, Status, emit, emit_three};
use jop_target::Target;
use keeper::Keeper;
use key_commands::{KeyCommand, KeysErr};
use local_store::Tables;
use std::alloc::Global;
use sync_run::{SessionErr, check_on, upgrade_on};
use sync_session::{SyncErr, sync_on};

/// The outside as commands work with it: sessions on its target, and prints.
pub(crate) trait World: Outside {
    /// A session of the client that takes a sync lock on the target and releases it.
    fn check(&mut self, alloc: Global, client: &ClientId) -> Result<(), SessionErr>
        ensures checks { RanCheck client.now (Self.now self.old) result (Self.now self.new) }
        ensures stays { Self.place self.new ≡ Self.place self.old };

    /// A session of the client that brings the target to the supported version, which it answers.
    fn upgrade(&mut self, alloc: Global, client: &ClientId) -> Result<u64, SessionErr>
        ensures upgrades { RanUpgrade client.now (Self.now self.old) result (Self.now self.new) }
        ensures stays { Self.place self.new ≡ Self.place self.old };

    /// A session of the client that brings its tables and the target together, and answers what was done.
    fn sync(
        &mut self,
        alloc: Global,
        tables: &mut Tables,
        client: &ClientId,
    ) -> Result<SyncReport, SyncErr>
        requires { AreKeptTables (Self.now self.old).keeper tables.old }
        ensures syncs { RanSync client.now tables.old (Self.now self.old) result (Self.now self.new) }
        ensures stays { Self.place self.new ≡ Self.place self.old };

    /// Does a command on master keys, and answers the text that it prints.
    fn obey_keys(&mut self, alloc: Global, command: KeyCommand) -> Result<Bytes, KeysErr>
        ensures runs { RunsKeys command (Self.now self.old) result (Self.now self.new) }
        ensures stays { Self.place self.new ≡ Self.place self.old };

    /// Prints pieces in a row.
    fn emit(&mut self, pieces: &[Piece]) -> Status
        ensures emits { EmitsTo (Ok (pieces_text pieces.now)) (Self.now self.old) result
            (Self.now self.new) }
        ensures stays { Self.place self.new ≡ Self.place self.old };

    /// Prints three parts in a row.
    fn emit_three(&mut self, first: &[u8], second: &[u8], third: &[u8]) -> Status
        ensures emits { EmitsTo (Ok (first.now ++ (second.now ++ third.now))) (Self.now self.old)
            result (Self.now self.new) }
        ensures stays { Self.place self.new ≡ Self.place self.old };

    /// Prints what a sync has done.
    fn emit_report(&mut self, report: &SyncReport) -> Status
        ensures emits { EmitsTo (Ok (report_text report.now)) (Self.now self.old) result
            (Self.now self.new) }
        ensures stays { Self.place self.new ≡ Self.place self.old };
}

impl<'a, 'b, 'c, K: Keeper, T: Target, I: Source, O: Sink, C: Clock, N: Entropy> World
    for Around<'a, 'b, 'c, K, T, I, O, C, N> {
    fn check(&mut self, alloc: Global, client: &ClientId) -> Result<(), SessionErr> {
        check_on(alloc, &mut *self.target, client, &mut *self.diary)
    }

    fn upgrade(&mut self, alloc: Global, client: &ClientId) -> Result<u64, SessionErr> {
        upgrade_on(alloc, &mut *self.target, client, &mut *self.diary)
    }

    fn sync(
        &mut self,
        alloc: Global,
        tables: &mut Tables,
        client: &ClientId,
    ) -> Result<SyncReport, SyncErr> {
        sync_on(
            alloc,
            &mut *self.target,
            &mut *self.keeper,
            tables,
            client,
            &mut *self.diary,
            &mut *self.made,
        )
    }

    fn obey_keys(&mut self, alloc: Global, command: KeyCommand) -> Result<Bytes, KeysErr> {
        key_commands::obey(alloc, self, command)
    }

    fn emit(&mut self, pieces: &[Piece]) -> Status {
        emit(&mut *self.out, pieces)
    }

    fn emit_three(&mut self, first: &[u8], second: &[u8], third: &[u8]) -> Status {
        emit_three(&mut *self.out, first, second, third)
    }

    fn emit_report(&mut self, report: &SyncReport) -> Status {
        emit_report(&mut *self.out, report)
    }
}
