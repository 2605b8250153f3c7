ghost use Rattle.std.specs.Prelude.{◌≡◌, None};
ghost use Rattle.jop_watch.specs.Progress.{may_draw, no_progress};
ghost use Rattle.jop_watch.specs.Watching.{SendsLine, MayDrawLine, TakesAway};

use crate::progress::Progress;
use crate::waiting::Waiting;
use crate::watcher::Watcher;
use jop_base::Path;
use jop_outside::{Clock, Sink, write_whole};
use jop_target::{Call, Reply};
use std::alloc::Global;
use std::marker::Model;

/// For so many milliseconds nothing is drawn.
const PATIENCE: u64 = 1000;

/// From one drawing to the next so many milliseconds go by at least.
const PAUSE: u64 = 100;

/// A line on a terminal that tells how far a session has come. It is drawn in its own place, at most ten
/// times a second, once the session is older than a second, and it is taken away when the session gives up
/// its lock, or when a call fails, behind which it makes no other. What the terminal or the clock fails to
/// do is passed over.
#[derive(Drop)]
pub struct Gauge<C: Clock + Drop, S: Sink + Drop> {
    clock: C,
    terminal: S,
    progress: Progress,
    began: Option<u64>,
    drawn: Option<u64>,
}

impl<C: Clock + Drop, S: Sink + Drop> Model for Gauge<C, S> {
    ghost use Rattle.jop_watch.specs.Watching.{GaugeNow};

    ghost Value = { GaugeNow };

    ghost view = { λ g. record {
      clock = C.state g.clock;
      terminal = S.state g.terminal;
      progress = g.progress;
      began = g.began;
      drawn = g.drawn;
    } };
}

impl<C: Clock + Drop, S: Sink + Drop> Gauge<C, S> {
    /// Nothing stands on the terminal yet. The clock shows milliseconds, since whenever.
    pub fn new(clock: C, terminal: S) -> Gauge<C, S>
        ensures clock { result.clock ≡ C.state clock }
        ensures terminal { result.terminal ≡ S.state terminal }
        ensures progress { result.progress ≡ no_progress }
        ensures began { result.began ≡ None }
        ensures drawn { result.drawn ≡ None }
    {
        Gauge {
            clock,
            terminal,
            progress: Progress::new(),
            began: None,
            drawn: None,
        }
    }

    /// Draws the line, if it is time to.
    fn draw(&mut self, alloc: Global)
        ensures { MayDrawLine self.old self.new }
    {
        if let Ok(now) = self.clock.now() {
            let began = self.began.unwrap_or(now);
            self.began = Some(began);
            if is_due(began, self.drawn, now) {
                self.drawn = Some(now);
                self.show(alloc);
            }
        }
    }

    fn show(&mut self, alloc: Global)
        ensures drawn { SendsLine self.old.progress self.old.terminal self.new.terminal }
        ensures same { self.new ≡ record self.old { terminal = self.new.terminal } }
    {
        let progress = self.progress;
        if let Ok(line) = format!(in alloc; "\r\u{1b}[K{progress}") {
            let _ = write_whole(&mut self.terminal, line.as_bytes());
        }
    }

    /// Takes the line away.
    fn clear(&mut self)
        ensures { TakesAway self.old self.new }
    {
        if self.drawn.take().is_some() {
            let _ = write_whole(&mut self.terminal, b"\r\x1b[K");
        }
    }
}

/// Whether the line may be drawn, by the moments, in milliseconds, at which the session began and the line
/// was drawn last.
fn is_due(began: u64, drawn: Option<u64>, now: u64) -> bool
    ensures { result ≡ may_draw began drawn now }
{
    match drawn {
        None => now.saturating_sub(began) >= PATIENCE,
        Some(last) => now.saturating_sub(last) >= PAUSE,
    }
}

impl<C: Clock + Drop, S: Sink + Drop> Watcher for Gauge<C, S> {
    ghost use Rattle.jop_watch.specs.Watching.{Gauges};

    ghost hears = { Gauges };

    fn heard(&mut self, alloc: Global, waiting: Waiting, call: &Call, reply: &Reply) {
        self.progress.waiting = waiting;
        self.progress.after(call, reply);
        match (call, reply) {
            (Call::Delete(Path::Lock(_)), _) | (_, Reply::Failed) => self.clear(),
            _ => self.draw(alloc),
        }
    }
}
