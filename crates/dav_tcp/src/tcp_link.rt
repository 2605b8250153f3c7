ghost use Rattle.std.specs.Prelude.{◌≡◌, ◌≢◌, ◌≤◌, ℕ, None, OnOk, IfOk, true, false, is_some, length, option_map};
ghost use Rattle.jop_outside.specs.Outside.{HasRisen};
ghost use Rattle.dav_tcp.specs.Limits.{ShowsMoment, StartsAnew, TellsTimeUp, WritesAnew, further_by};
ghost use Rattle.dav_tcp.specs.declared.tcp_link.Stage.TheVariants.{Idle};

use crate::pace::{Pace, next_pace};
use crate::stream::{prepare, read_on, write_on};
use dav_link::Link;
use jop_base::Text;
use jop_outside::{Clock, Failed, Faults};
use std::io;
use std::io::ErrorKind;
use std::net::{Net, OpenStream, SocketAddr, TcpStream, ToSocketAddrs};
use std::time::Duration;

/// How many seconds one address may take to answer.
const CONNECT_SECONDS: u64 = 10;

/// How many addresses of a host are tried.
const MOST_ADDRESSES: usize = 3;

/// A link to a server, over a connection that is kept from one request to the next.
///
/// **While it is idle** a server may close the connection. That is told from a fault before a
/// request is sent: the connection is looked at, and if it has ended, or bytes came that nobody
/// asked for, another is made. Once a request was begun, an end is a fault, since the call may have
/// landed; no request is sent twice.
///
/// **Limits.** Each of the first 3 addresses of a host has 10 seconds to answer. A read or a write
/// has 20 seconds to wait for the server, and none begins more than 30 seconds, and a second more
/// for each 16,384 bytes of the request and its response, after the request began, nor more than 85;
/// nor more than 95 after that request began which was answered last. So each request ends, with
/// its response, within 110 seconds, the connecting with it; how long the system looks for the
/// addresses of a name is its own matter, but nothing is sent behind it then.
#[derive(Drop)]
pub struct TcpLink<R: Net, C> {
    rt: R,
    /// By which requests are timed.
    clock: C,
    /// `host:port`.
    address: Text,
    stream: Option<R::Stream>,
    stage: Stage,
    /// Of the request at hand and its response, or the last.
    pace: Option<Pace>,
    opened: u64,
    faults: Faults,
}

/// Where a link stands between its calls.
#[derive(Clone, Copy, Debug, PartialEq, Eq)]
enum Stage {
    /// Nothing was written since the last read, so that a write begins a request, behind one that was answered.
    Idle,
    /// It was opened for a request, of which nothing was written.
    Opened,
    /// A request was begun to be written, and nothing was read since.
    Asked,
}

/// Whether the peer has closed a connection over which nothing is awaited, or has sent bytes unasked.
fn is_spent<S: OpenStream>(stream: &S) -> bool {
    if stream.set_nonblocking(true).is_err() {
        return true;
    }
    let quiet = match stream.peek(&mut [0; 1]) {
        Ok(_) => false,
        Err(error) => error.kind() == ErrorKind::WouldBlock,
    };
    stream.set_nonblocking(false).is_err() || !quiet
}

/// A connection to one address of the server.
fn connect_to<N: Net>(net: &N, place: &SocketAddr) -> io::Result<N::Stream> {
    let limit = Duration::from_secs(CONNECT_SECONDS);
    let stream = TcpStream::connect_timeout(net, place, limit)?;
    prepare(&stream)?;
    Ok(stream)
}

/// A connection to the first of the server's addresses that answers.
fn connect<N: Net>(net: &N, address: &str) -> io::Result<N::Stream> {
    let mut last = io::Error::from(ErrorKind::NotFound);
    for place in address.to_socket_addrs(net)?.take(MOST_ADDRESSES) {
        match connect_to(net, &place) {
            Ok(stream) => return Ok(stream),
            Err(error) => last = error,
        }
    }
    Err(last)
}

impl<R: Net + Drop, C: Clock> TcpLink<R, C> {
    /// A link to the server at `host:port`, which isn't connected to yet. Its requests are timed by this clock.
    pub fn new(rt: R, clock: C, address: Text) -> TcpLink<R, C>
        ensures address { result.address ≡ address }
        ensures closed { is_some result.stream ≡ false }
        ensures counts { (result.opened ≡ 0) × (result.faults ≡ 0) }
    {
        TcpLink {
            rt,
            clock,
            address,
            stream: None,
            stage: Stage::Idle,
            pace: None,
            opened: 0,
            faults: Faults::new(),
        }
    }

    /// Counts a fault.
    fn fault(&mut self) -> Failed
        ensures rose { HasRisen self.old.faults self.new.faults }
        ensures later { self.old.faults ≤ self.new.faults }
        ensures opened { self.new.opened ≡ self.old.opened }
    {
        self.faults.rise();
        Failed
    }

    // ---- time

    /// What the clock shows.
    fn look(&mut self) -> io::Result<u64>
        ensures shown { IfOk result (ShowsMoment (C.state self.old.clock).next) }
        ensures pace { self.new.pace ≡ self.old.pace }
        ensures stage { self.new.stage ≡ self.old.stage }
        ensures counts { (self.new.faults ≡ self.old.faults) × (self.new.opened ≡ self.old.opened) }
    {
        match self.clock.now() {
            Ok(now) => Ok(now),
            Err(_) => Err(io::Error::from(ErrorKind::Other)),
        }
    }

    /// A request begins now, behind one that was answered or wasn't.
    fn start(&mut self, answered: bool) -> io::Result<()>
        ensures anew { OnOk result
            (StartsAnew (C.state self.old.clock).next self.old.pace answered self.new.pace) }
        ensures stage { self.new.stage ≡ self.old.stage }
        ensures counts { (self.new.faults ≡ self.old.faults) × (self.new.opened ≡ self.old.opened) }
    {
        let now = self.look()?;
        self.pace = Some(next_pace(self.pace, answered, now));
        Ok(())
    }

    /// Whether time is up for the request at hand.
    fn is_time_up(&mut self) -> io::Result<bool>
        ensures up { IfOk result (TellsTimeUp (C.state self.old.clock).next self.old.pace) }
        ensures pace { self.new.pace ≡ self.old.pace }
        ensures counts { (self.new.faults ≡ self.old.faults) × (self.new.opened ≡ self.old.opened) }
    {
        let now = self.look()?;
        let pace = self.pace;
        match pace {
            None => Ok(false),
            Some(pace) => Ok(pace.is_time_up(now)),
        }
    }

    /// An error if time is up for the request at hand.
    fn go_on(&mut self) -> io::Result<()>
        ensures goes { OnOk result (TellsTimeUp (C.state self.old.clock).next self.old.pace false) }
        ensures pace { self.new.pace ≡ self.old.pace }
        ensures counts { (self.new.faults ≡ self.old.faults) × (self.new.opened ≡ self.old.opened) }
    {
        if self.is_time_up()? {
            return Err(io::Error::from(ErrorKind::TimedOut));
        }
        Ok(())
    }

    /// So many bytes of it went or came.
    fn count(&mut self, bytes: usize)
        ensures pace { self.new.pace ≡ option_map (further_by bytes) self.old.pace }
        ensures counts { (self.new.faults ≡ self.old.faults) × (self.new.opened ≡ self.old.opened) }
    {
        if let Some(pace) = &mut self.pace {
            pace.count(bytes);
        }
    }

    // ---- connections

    /// Connects, and leaves the connection there was.
    fn connect(&mut self) -> io::Result<()>
        ensures pace { self.new.pace ≡ self.old.pace }
        ensures counts { (self.new.faults ≡ self.old.faults) × (self.new.opened ≡ self.old.opened) }
    {
        self.stream = None;
        self.stream = Some(connect(&self.rt, self.address.as_str())?);
        Ok(())
    }

    /// Connects if the connection that is kept is spent, or there is none.
    fn connect_if_spent(&mut self) -> io::Result<()>
        ensures pace { self.new.pace ≡ self.old.pace }
        ensures counts { (self.new.faults ≡ self.old.faults) × (self.new.opened ≡ self.old.opened) }
    {
        let spent = match &self.stream {
            Some(stream) => is_spent(stream),
            None => true,
        };
        if !spent {
            return Ok(());
        }
        self.connect()?;
        Ok(())
    }

    // ---- requests

    /// A request begins, over a connection of its own: that which was kept was of no more use, so the
    /// one before it wasn't answered.
    fn reopen(&mut self) -> io::Result<()>
        ensures anew { OnOk result
            (StartsAnew (C.state self.old.clock).next self.old.pace false self.new.pace) }
        ensures counts { (self.new.faults ≡ self.old.faults) × (self.new.opened ≡ self.old.opened) }
    {
        self.stage = Stage::Opened;
        self.start(false)?;
        self.connect()?;
        Ok(())
    }

    /// A request begins behind one that was answered, unless the link was opened for it.
    fn start_if_idle(&mut self) -> io::Result<()>
        ensures anew { self.old.stage ≡ Idle → OnOk result
            (StartsAnew (C.state self.old.clock).next self.old.pace true self.new.pace) }
        ensures opened { self.old.stage ≢ Idle → self.new.pace ≡ self.old.pace }
        ensures counts { (self.new.faults ≡ self.old.faults) × (self.new.opened ≡ self.old.opened) }
    {
        match self.stage {
            Stage::Idle => self.start(true),
            Stage::Opened | Stage::Asked => Ok(()),
        }
    }

    /// A request begins, unless it was begun: over another connection if that which is kept is spent.
    fn begin(&mut self) -> io::Result<()>
        ensures anew { self.old.stage ≡ Idle → OnOk result
            (StartsAnew (C.state self.old.clock).next self.old.pace true self.new.pace) }
        ensures opened { self.old.stage ≢ Idle → self.new.pace ≡ self.old.pace }
        ensures counts { (self.new.faults ≡ self.old.faults) × (self.new.opened ≡ self.old.opened) }
    {
        if self.stage == Stage::Asked {
            return Ok(());
        }
        self.start_if_idle()?;
        self.connect_if_spent()?;
        self.stage = Stage::Asked;
        Ok(())
    }

    fn write_some(&mut self, from: &[u8]) -> io::Result<usize>
        ensures within { IfOk result (λ count. count ≤ length from.now) }
        ensures anew { self.old.stage ≡ Idle → IfOk result (λ count.
            WritesAnew (C.state self.old.clock).next self.old.pace count self.new.pace) }
        ensures counted { self.old.stage ≢ Idle → IfOk result (λ count.
            self.new.pace ≡ option_map (further_by count) self.old.pace) }
        ensures counts { (self.new.faults ≡ self.old.faults) × (self.new.opened ≡ self.old.opened) }
    {
        self.begin()?;
        self.go_on()?;
        let Some(stream) = &mut self.stream else {
            return Err(io::Error::from(ErrorKind::NotConnected));
        };
        let count = write_on(stream, from)?;
        self.count(count);
        Ok(count)
    }

    fn read_some(&mut self, into: &mut [u8]) -> io::Result<usize>
        ensures within { IfOk result (λ count. count ≤ length into.old) }
        ensures length { length into.new ≡ length into.old }
        ensures counted { IfOk result (λ count.
            self.new.pace ≡ option_map (further_by count) self.old.pace) }
        ensures counts { (self.new.faults ≡ self.old.faults) × (self.new.opened ≡ self.old.opened) }
    {
        self.go_on()?;
        let Some(stream) = &mut self.stream else {
            return Err(io::Error::from(ErrorKind::NotConnected));
        };
        let count = read_on(stream, into)?;
        self.stage = Stage::Idle;
        self.count(count);
        Ok(count)
    }
}

impl<R: Net + Drop, C: Clock> Link for TcpLink<R, C> {
    ghost state = { λ l. record {
      left = None;
      written = None;
      opened = l.opened;
      faults = l.faults;
    } };

    fn open(&mut self) -> Result<(), Failed> {
        self.opened = self.opened.saturating_add(1);
        match self.reopen() {
            Ok(()) => Ok(()),
            Err(_) => Err(self.fault()),
        }
    }

    fn read(&mut self, into: &mut [u8]) -> Result<usize, Failed> {
        match self.read_some(into) {
            Ok(count) => Ok(count),
            Err(_) => Err(self.fault()),
        }
    }

    // A stream that takes nothing of a piece has failed too.
    fn write(&mut self, from: &[u8]) -> Result<usize, Failed> {
        match self.write_some(from) {
            Ok(0) if !from.is_empty() => Err(self.fault()),
            Ok(count) => Ok(count),
            Err(_) => Err(self.fault()),
        }
    }
}
