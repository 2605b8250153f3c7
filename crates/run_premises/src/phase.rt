ghost use Rattle.std.specs.Prelude.{◌≡◌, ◌+◌, ◌≤◌, Some, None};
ghost use Rattle.std.specs.Prelude.{is_none as is_nothing};
ghost use Rattle.jop_target.specs.declared.event.Event.{Event as AnEvent};
ghost use Rattle.lease.specs.Discipline.{Session, session_after};
ghost use Rattle.lease.specs.Locks.{blocking_in, same_kind};
ghost use Rattle.lease.specs.Phase.{Phase as LeasePhase, asked_phase, renewed_phase, phase_after, phase_unheard};
ghost use Rattle.run_premises.specs.Seen.{after_reply, listed, may, may_put, role_as, seen_phase};

use crate::own_lock::{asked_stamp, own_stamp, renewed_stamp};
use crate::role::{Role, role_of};
use jop_base::{ClientId, LockKind};
use jop_target::{Call, Event, Listing, Reply};
use lease::blocking;

/// Where a session stands with its lease, as far as it matters for what comes next.
#[derive(Clone, Copy, Debug, PartialEq, Eq)]
pub enum Phase {
    Free,
    /// The locks were listed, and no lock is in the way of a sync lock, or of an exclusive one.
    Looked { sync: bool, exclusive: bool },
    Asked(LockKind),
    /// The lease is held, and its own lock has this stamp, in milliseconds since 1970.
    Held { kind: LockKind, stamp: u64 },
    Renewing { kind: LockKind, stamp: u64 },
    Leaving(LockKind),
    Over,
    /// Something was called that may not be.
    Broken,
}

/// Whether no lock of a listing is in the client's way.
fn is_free(listing: &Listing, kind: LockKind, client: &ClientId) -> bool
    ensures { result ≡ is_nothing (blocking_in kind client.now listing.entry.now) }
{
    blocking(listing, kind, client).is_none()
}

fn looked(client: &ClientId, listing: &Listing) -> Phase
    ensures { result ≡ seen_phase client.now (LeasePhase.Looked listing.entry.now) }
{
    Phase::Looked {
        sync: is_free(listing, LockKind::Sync, client),
        exclusive: is_free(listing, LockKind::Exclusive, client),
    }
}

fn same_kind(kind: LockKind, own: LockKind) -> bool
    ensures { result ≡ same_kind kind own }
{
    kind == own
}

fn may_put(kind: LockKind, sync: bool, exclusive: bool) -> bool
    ensures { result ≡ may_put kind sync exclusive }
{
    match kind {
        LockKind::Sync => sync,
        LockKind::Exclusive => exclusive,
    }
}

/// Whether a phase allows a call.
fn may(phase: Phase, role: Role) -> bool
    ensures { result ≡ may phase (role_as role) }
{
    match (phase, role) {
        (Phase::Free, Role::MakesLocks | Role::ListsLocks) => true,
        (Phase::Looked { sync, exclusive }, Role::PutsOwn(kind)) => may_put(kind, sync, exclusive),
        (Phase::Asked(_), Role::ListsLocks) => true,
        (Phase::Held { kind, stamp: _ }, Role::PutsOwn(own) | Role::DeletesOwn(own)) => {
            same_kind(kind, own)
        }
        (Phase::Held { kind: _, stamp: _ }, Role::MakesLocks | Role::Plain) => true,
        (Phase::Renewing { kind: _, stamp: _ }, Role::ListsLocks) => true,
        (Phase::Leaving(kind), Role::DeletesOwn(own)) => same_kind(kind, own),
        _ => false,
    }
}

/// A lease is held from that stamp on if its own lock is shown in time, and no lock is in its way.
fn listed(kind: LockKind, shown: Option<u64>, is_free: bool) -> Phase
    ensures { result ≡ listed kind shown is_free }
{
    match shown {
        Some(stamp) if is_free => Phase::Held { kind, stamp },
        _ => Phase::Leaving(kind),
    }
}

#[tactic(auto, using(crate::proofs::Seen::listed_seen))]
fn asked(client: &ClientId, kind: LockKind, listing: &Listing) -> Phase
    ensures { result ≡ seen_phase client.now (asked_phase kind client.now listing.entry.now) }
{
    let shown = asked_stamp(listing.now, own_stamp(listing, kind, client));
    listed(kind, shown, is_free(listing, kind, client))
}

#[tactic(auto, using(crate::proofs::Seen::listed_seen))]
fn renewed(client: &ClientId, kind: LockKind, stamp: u64, listing: &Listing) -> Phase
    ensures { result
        ≡ seen_phase client.now (renewed_phase kind stamp client.now listing.entry.now) }
{
    let shown = renewed_stamp(stamp, listing.now, own_stamp(listing, kind, client));
    listed(kind, shown, true)
}

/// What a phase becomes by an allowed call and its reply.
fn after_reply(client: &ClientId, phase: Phase, role: Role, reply: &Reply) -> Phase
    ensures { result ≡ after_reply client.now phase (role_as role) reply.now }
{
    match (phase, role, reply) {
        (_, _, Reply::Failed) => Phase::Over,
        (Phase::Free, Role::MakesLocks, Reply::Done { now: _ }) => Phase::Free,
        (Phase::Free, Role::ListsLocks, Reply::Listed(listing)) => looked(client, listing),
        (
            Phase::Looked {
                sync: _,
                exclusive: _,
            },
            Role::PutsOwn(kind),
            Reply::Done { now: _ },
        ) => { Phase::Asked(kind) }
        (Phase::Asked(kind), Role::ListsLocks, Reply::Listed(listing)) => {
            asked(client, kind, listing)
        }
        (Phase::Held { kind, stamp }, Role::PutsOwn(_), Reply::Done { now: _ }) => {
            Phase::Renewing { kind, stamp }
        }
        (Phase::Held { kind: _, stamp: _ } | Phase::Leaving(_), Role::DeletesOwn(_), _) =>
            Phase::Over,
        (Phase::Held { kind, stamp }, Role::MakesLocks | Role::Plain, _) => {
            Phase::Held { kind, stamp }
        }
        (Phase::Renewing { kind, stamp }, Role::ListsLocks, Reply::Listed(listing)) => {
            renewed(client, kind, stamp, listing)
        }
        _ => Phase::Broken,
    }
}

/// What a phase becomes by a call and its reply.
#[tactic(auto, using(crate::proofs::Seen::phase_seen))]
fn phase_after(client: &ClientId, phase: Phase, call: &Call, reply: &Reply) -> Phase
    ensures { (p : LeasePhase) → phase ≡ seen_phase client.now p →
        result ≡ seen_phase client.now (phase_after client.now p call.now reply.now) }
{
    let role = role_of(client, call);
    if may(phase, role) {
        after_reply(client, phase, role, reply)
    } else {
        Phase::Broken
    }
}

/// What a phase becomes by a call whose reply is never heard.
#[tactic(auto, using(crate::proofs::Seen::unheard_seen))]
fn phase_unheard(client: &ClientId, phase: Phase, call: &Call) -> Phase
    ensures { (p : LeasePhase) → phase ≡ seen_phase client.now p →
        result ≡ seen_phase client.now (phase_unheard client.now p call.now) }
{
    if may(phase, role_of(client, call)) {
        Phase::Over
    } else {
        Phase::Broken
    }
}

/// What a phase becomes by an event of the client.
pub fn phase_by(client: &ClientId, phase: Phase, event: &Event) -> Phase
    ensures { (s : Session) → phase ≡ seen_phase client.now s.phase →
        result ≡ seen_phase client.now (session_after client.now s event.now).phase }
{
    match event {
        Event::Began => Phase::Free,
        Event::Sent(call) => phase_unheard(client, phase, call),
        Event::Called(call, reply) => phase_after(client, phase, call, reply),
        Event::Made(_) | Event::Ended => phase,
    }
}
