ghost use Rattle.std.specs.Prelude.{◌≡◌, true, IfOk, IfErr, Some, is_some};
ghost use Rattle.std.specs.List.{AllByRecursion};
ghost use Rattle.jed_format.specs.Chunk.{is_chunk};
ghost use Rattle.master_keys.specs.Rings.{digits_in, digits_of, is_here, is_shut, ring_now, shut_active, HasActive, IsRing, LacksActive};

use crate::key_err::KeyErr;
use crate::locked_key::LockedKey;
use crate::tried_key::TriedKey;
use jed_format::open_chunk;
use jop_base::{Bytes, Copied, Id, Seq, Text};
use std::alloc::{AllocError, Global};
use std::marker::Model;

/// The keys of a session: those whose records are readable, the one that seals, and whether puts are sealed. A key's
/// record is opened when its digits are first asked for, since that takes many turns, and they are kept then. So what
/// looks for a key takes the ring by `&mut`, and contracts see it unchanged.
#[derive(Drop)]
pub struct Ring {
    password: Option<Text>,
    locked: Seq<LockedKey>,
    active: Option<Id>,
    seals: bool,
    tried: Seq<TriedKey>,
}

impl Model for Ring {
    ghost use Rattle.master_keys.specs.Rings.{RingNow, ring_now, IsRing};

    ghost Value = { RingNow };

    ghost view = { λ r. ring_now r.password r.locked r.active r.seals };

    ghost invariant = { λ r. IsRing r.password r.locked r.tried };
}

/// The digits of the first key of an id, if its record opens under this password.
fn open_under(
    alloc: Global,
    password: &Text,
    locked: &Seq<LockedKey>,
    id: &Id,
) -> Result<Option<Bytes>, AllocError>
    requires { AllByRecursion (λ key. is_chunk key.chunk ≡ true) locked.now }
    ensures { IfOk result (λ found. found ≡ digits_in (Some password.now) locked.now id.now) }
{
    match locked.at(id) {
        Some(key) => {
            let found = open_chunk(alloc, &key.chunk, password.as_slice())?;
            Ok(found)
        }
        None => Ok(None),
    }
}

/// The digits of the first key of an id, if there is a password and its record opens under it.
fn open_digits(
    alloc: Global,
    password: &Option<Text>,
    locked: &Seq<LockedKey>,
    id: &Id,
) -> Result<Option<Bytes>, AllocError>
    requires { AllByRecursion (λ key. is_chunk key.chunk ≡ true) locked.now }
    ensures { IfOk result (λ found. found ≡ digits_in password.now locked.now id.now) }
{
    match password {
        Some(password) => {
            let found = open_under(alloc, password, locked, id)?;
            Ok(found)
        }
        None => Ok(None),
    }
}

/// The digits of a key, found among those that were tried, or else tried now.
fn digits_by(
    alloc: Global,
    password: &Option<Text>,
    locked: &Seq<LockedKey>,
    tried: &mut Seq<TriedKey>,
    id: &Id,
) -> Result<Option<Bytes>, AllocError>
    requires { IsRing password.now locked.now tried.old }
    ensures digits { IfOk result (λ found. found ≡ digits_in password.now locked.now id.now) }
    ensures sound { IsRing password.now locked.now tried.new }
{
    if let Some(key) = tried.at(id) {
        let found = key.digits.copy(alloc)?;
        return Ok(found);
    }
    let found = open_digits(alloc, password, locked, id)?;
    let digits = found.copy(alloc)?;
    tried.push(TriedKey { id: *id, digits })?;
    Ok(found)
}

impl Ring {
    /// The ring of keys that are locked, of which none was tried.
    pub(crate) fn of(
        alloc: Global,
        password: Option<Text>,
        locked: Seq<LockedKey>,
        active: Option<Id>,
        seals: bool,
    ) -> Ring
        requires { AllByRecursion (λ key. is_chunk key.chunk ≡ true) locked }
        ensures { result ≡ ring_now password locked active seals }
    {
        Ring {
            password,
            locked,
            active,
            seals,
            tried: Seq::new(alloc),
        }
    }

    /// Whether puts are to be sealed.
    pub fn seals(&self) -> bool
        ensures { result ≡ self.now.seals }
    {
        self.seals
    }

    /// The key that seals, if the info names one.
    pub fn active(&self) -> Option<Id>
        ensures { result ≡ self.now.active }
    {
        self.active
    }

    /// Whether a key is here and open.
    pub fn has(&mut self, alloc: Global, id: &Id) -> Result<bool, AllocError>
        ensures has { IfOk result (λ has. has ≡ is_some (digits_of self.old id.now)) }
        ensures kept { self.new ≡ self.old }
    {
        let found = self.digits(alloc, id)?;
        Ok(found.is_some())
    }

    /// Whether the record of a key is readable.
    fn is_here(&self, id: &Id) -> bool
        ensures { result ≡ is_here self.now id.now }
    {
        self.locked.at(id).is_some()
    }

    /// Whether the record of a key is readable, and doesn't open.
    fn is_shut(&mut self, alloc: Global, id: &Id) -> Result<bool, AllocError>
        ensures shut { IfOk result (λ shut. shut ≡ is_shut self.old id.now) }
        ensures kept { self.new ≡ self.old }
    {
        if !self.is_here(id) {
            return Ok(false);
        }
        let found = self.digits(alloc, id)?;
        Ok(found.is_none())
    }

    /// The key that seals, if its record is readable and doesn't open.
    pub(crate) fn shut_active(&mut self, alloc: Global) -> Result<Option<Id>, AllocError>
        ensures shut { IfOk result (λ found. found ≡ shut_active self.old) }
        ensures kept { self.new ≡ self.old }
    {
        let active = self.active;
        let Some(key) = active else {
            return Ok(None);
        };
        if self.is_shut(alloc, &key)? {
            return Ok(Some(key));
        }
        Ok(None)
    }

    /// The digits of a key, if it is here and open.
    pub(crate) fn digits(&mut self, alloc: Global, id: &Id) -> Result<Option<Bytes>, AllocError>
        ensures digits { IfOk result (λ found. found ≡ digits_of self.old id.now) }
        ensures kept { self.new ≡ self.old }
    {
        let found = digits_by(alloc, &self.password, &self.locked, &mut self.tried, id)?;
        Ok(found)
    }

    /// The key that seals, and its digits. `NoKey` with its id if it isn't here and open.
    pub(crate) fn active_key(&mut self, alloc: Global) -> Result<(Id, Bytes), KeyErr>
        ensures ok { IfOk result (λ key. HasActive self.old key.0 key.1) }
        ensures err { IfErr result (λ e. LacksActive self.old e) }
        ensures kept { self.new ≡ self.old }
    {
        let active = self.active;
        let Some(key) = active else {
            return Err(KeyErr::NoKey(None));
        };
        match self.digits(alloc, &key)? {
            Some(digits) => Ok((key, digits)),
            None => Err(KeyErr::NoKey(Some(key))),
        }
    }
}
