ghost use Rattle.std.specs.Prelude.{◌≡◌, ◌+◌, ◌++◌, ◌∷◌, [], ◌≤◌, List, OnOk, OnErr, IsOk, true};
ghost use Rattle.std.specs.Prelude.{vec_capacity, vec_len};
ghost use Rattle.jop_target.specs.Running.{is_running};
ghost use Rattle.jop_target.specs.Trail.{last_moment};
ghost use Rattle.jop_target.specs.declared.event.Event.{Event};
ghost use Rattle.jop_target.specs.declared.event.Event.TheVariants.{Began, Sent, Called, Made, Ended};

use crate::call::Call;
use crate::event::Event;
use crate::reply::Reply;
use std::alloc::{AllocError, Global};
use std::marker::Model;

/// What a client did, event by event. While a session goes on, there is room for its end.
#[derive(Debug, Drop)]
pub struct Diary {
    list: Vec<Event>,
    /// The last moment that the last session was told; 0 before the first.
    heard: u64,
}

impl Model for Diary {
    ghost use Rattle.std.specs.Prelude.{◌+◌, ◌-◌, vec_len, vec_capacity};
    ghost use Rattle.jop_target.specs.Pages.{Pages};
    ghost use Rattle.jop_target.specs.Running.{DiaryKnows};

    ghost Value = { Pages };

    ghost view = { λ d. record {
      events = d.list.items;
      room = vec_capacity d.list - (vec_len d.list + 1);
    } };

    ghost invariant = { λ d.
        DiaryKnows d.list.items d.heard (vec_len d.list) (vec_capacity d.list) };
}

/// Writes an event down, and leaves room for one more.
fn write(list: &mut Vec<Event>, event: Event) -> Result<(), AllocError>
    ensures ok { OnOk result (list.new.items ≡ list.old.items ++ event ∷ []) }
    ensures spare { OnOk result (vec_len list.new + 1 ≤ vec_capacity list.new) }
    ensures err { OnErr result (list.new.items ≡ list.old.items) }
    ensures len { OnErr result (vec_len list.new ≡ vec_len list.old) }
    ensures capacity { vec_capacity list.old ≤ vec_capacity list.new }
    ensures sure { vec_len list.old + 2 ≤ vec_capacity list.old → IsOk result }
{
    list.reserve(2)?;
    list.push(event)?;
    Ok(())
}

#[tactic(auto, using(crate::proofs::Moments::moment_from_last, crate::proofs::Running::runs_from_last))]
impl Diary {
    #[tactic(auto, unfolding(crate::specs::Trail::moment_from, crate::specs::Running::runs_from))]
    pub fn new(alloc: Global) -> Diary
        ensures { result.events ≡ [] }
    {
        Diary {
            list: Vec::new(alloc),
            heard: 0,
        }
    }

    /// A session begins.
    pub fn begin(&mut self) -> Result<(), AllocError>
        ensures ok { OnOk result (self.new.events ≡ self.old.events ++ Began ∷ []) }
        ensures err { OnErr result (self.new.events ≡ self.old.events) }
        ensures sure { 1 ≤ self.old.room → IsOk result }
    {
        write(&mut self.list, Event::Began)?;
        self.heard = 0;
        Ok(())
    }

    /// The session ends. There is room for that, if one goes on.
    pub fn end(&mut self) -> Result<(), AllocError>
        ensures ok { OnOk result (self.new.events ≡ self.old.events ++ Ended ∷ []) }
        ensures err { OnErr result (self.new.events ≡ self.old.events) }
        ensures ends { is_running self.old.events ≡ true → IsOk result }
        ensures sure { 1 ≤ self.old.room → IsOk result }
    {
        self.list.push(Event::Ended)?;
        Ok(())
    }

    /// The change of this number, counted from 0 in the list of this run, was made.
    pub fn made(&mut self, number: u64) -> Result<(), AllocError>
        ensures ok { OnOk result (self.new.events ≡ self.old.events ++ Made number ∷ []) }
        ensures err { OnErr result (self.new.events ≡ self.old.events) }
        ensures sure { 1 ≤ self.old.room → IsOk result }
    {
        write(&mut self.list, Event::Made(number))?;
        Ok(())
    }

    /// Makes room for one event more, beside the end of a session, so that the next one can't be
    /// refused.
    pub fn reserve(&mut self) -> Result<(), AllocError>
        ensures same { self.new.events ≡ self.old.events }
        ensures room { OnOk result (1 ≤ self.new.room) }
    {
        self.list.reserve(2)?;
        Ok(())
    }

    pub fn events(&self) -> &[Event]
        ensures { result.now ≡ self.now.events }
    {
        self.list.as_slice()
    }

    /// The last moment that the last session was told, in milliseconds since 1970; 0 before the
    /// first.
    pub fn heard(&self) -> u64
        ensures { result ≡ last_moment self.now.events }
    {
        self.heard
    }

    /// A call is sent.
    pub(crate) fn send(&mut self, call: Call) -> Result<(), AllocError>
        ensures ok { OnOk result (self.new.events ≡ self.old.events ++ Sent call ∷ []) }
        ensures err { OnErr result (self.new.events ≡ self.old.events) }
    {
        write(&mut self.list, Event::Sent(call))?;
        Ok(())
    }

    /// The call that was sent last and has no reply yet.
    pub(crate) fn sent(&self) -> &Call
        requires { (before : List Event) × (call : _) ×
            (self.now.events ≡ before ++ Sent call ∷ []) }
        ensures { (before : List Event) (call : _) →
            self.now.events ≡ before ++ Sent call ∷ [] → result.now ≡ call }
    {
        match self.list.last() {
            Some(Event::Sent(call)) => call,
            _ => unreachable!(),
        }
    }

    /// The call that was sent last is answered.
    pub(crate) fn answer(&mut self, reply: Reply)
        requires { (before : List Event) × (call : _) ×
            (self.old.events ≡ before ++ Sent call ∷ []) }
        ensures { (before : List Event) (call : _) →
            self.old.events ≡ before ++ Sent call ∷ []
            → self.new.events ≡ before ++ Called call reply ∷ [] }
    {
        match self.list.pop() {
            Some(Event::Sent(call)) => {
                self.heard = reply.moment().unwrap_or(self.heard);
                let _ = self.list.push(Event::Called(call, reply));
            }
            _ => unreachable!(),
        }
    }
}
