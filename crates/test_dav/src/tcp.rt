//! Links of TCP over loopback, timed by a clock in memory.

use dav_link::Link;
use dav_tcp::TcpLink;
use jop_base::Text;
use jop_outside::MemClock;
use std::io::{Read, Write};
use std::net::{TcpListener, TcpStream};
use std::test::Fail;
use std::thread;
use std::time::Duration;

/// How many bytes give a request a second more.
const PIECE: usize = 16_384;

/// A link to a listener, and the server's end of the connection that it has.
#[derive(Drop)]
struct Ends {
    listener: TcpListener,
    link: TcpLink<HostRuntime, MemClock>,
    server: TcpStream,
}

fn pause(rt: &HostRuntime) {
    thread::sleep(rt, Duration::from_millis(20));
}

/// The server's end of the next connection. An error if none comes within two seconds.
fn accept(rt: &HostRuntime, listener: &TcpListener) -> Result<TcpStream, Fail> {
    for _ in 0..100 {
        if let Ok((stream, _)) = listener.accept() {
            return Ok(stream);
        }
        pause(rt);
    }
    Err(Fail::new("no connection"))
}

/// A link to a listener, whose clock shows so many milliseconds more each time.
fn link_to(
    rt: &HostRuntime,
    listener: &TcpListener,
    step: u64,
) -> Result<TcpLink<HostRuntime, MemClock>, Fail> {
    let alloc = rt.alloc();
    let port = listener.local_addr()?.port();
    let address = format!(in alloc; "127.0.0.1:{port}")?;
    let clock = MemClock::new(alloc, 0, step);
    Ok(TcpLink::new(rt.clone()?, clock, Text::of(alloc, address.as_str())?))
}

/// A link that was opened.
fn joined(rt: &HostRuntime, step: u64) -> Result<Ends, Fail> {
    let listener = TcpListener::bind(rt, "127.0.0.1:0")?;
    listener.set_nonblocking(true)?;
    let mut link = link_to(rt, &listener, step)?;
    link.open()?;
    let server = accept(rt, &listener)?;
    Ok(Ends {
        listener,
        link,
        server,
    })
}

impl Ends {
    /// Pieces of a request are written to a server that takes each: how many, until one isn't.
    fn count_written(&mut self, most: usize) -> Result<usize, Fail> {
        let mut taken = [0; PIECE];
        for count in 0..most {
            let Ok(written) = self.link.write(&[0; PIECE]) else {
                return Ok(count);
            };
            self.server.read_exact(&mut taken[..written])?;
        }
        Ok(most)
    }

    /// Whether a byte that the server writes is read.
    fn is_answered(&mut self) -> Result<bool, Fail> {
        self.server.write_all(b"x")?;
        Ok(self.link.read(&mut [0; 1]).is_ok())
    }

    /// Whether a request of one byte is answered.
    fn is_asked(&mut self) -> Result<bool, Fail> {
        if self.link.write(b"?").is_err() {
            return Ok(false);
        }
        self.server.read_exact(&mut [0; 1])?;
        self.is_answered()
    }

    /// How many such requests are answered one after the other, until one isn't.
    fn count_asked(&mut self, most: usize) -> Result<usize, Fail> {
        for count in 0..most {
            if !self.is_asked()? {
                return Ok(count);
            }
        }
        Ok(most)
    }
}

#[test]
fn each_request_has_its_time_anew(rt: HostRuntime) -> Result<(), Fail> {
    let mut ends = joined(&rt, 10_000)?;
    assert_eq!(rt; ends.count_asked(20)?, 20);
    Ok(())
}

#[test]
fn a_request_has_thirty_seconds(rt: HostRuntime) -> Result<(), Fail> {
    let mut ends = joined(&rt, 30_000)?;
    assert_eq!(rt; ends.count_written(1)?, 1);
    let mut late = joined(&rt, 30_001)?;
    assert_eq!(rt; late.count_written(1)?, 0);
    Ok(())
}

#[test]
fn a_response_that_comes_too_late_is_a_fault(rt: HostRuntime) -> Result<(), Fail> {
    let mut ends = joined(&rt, 16_000)?;
    assert!(rt; !ends.is_asked()?);
    Ok(())
}

// Each piece gives the second that passes.
#[test]
fn a_request_has_eighty_five_seconds_at_most(rt: HostRuntime) -> Result<(), Fail> {
    let mut ends = joined(&rt, 1_000)?;
    assert_eq!(rt; ends.count_written(100)?, 85);
    Ok(())
}

// The first takes 80 seconds, so the next may go on until the clock shows 95.
#[test]
fn what_was_heard_last_ends_the_next_request(rt: HostRuntime) -> Result<(), Fail> {
    let mut ends = joined(&rt, 1_000)?;
    assert_eq!(rt; ends.count_written(79)?, 79);
    assert!(rt; ends.is_answered()?);
    assert_eq!(rt; ends.count_written(100)?, 14);
    Ok(())
}

#[test]
fn bytes_that_came_unasked_are_no_response(rt: HostRuntime) -> Result<(), Fail> {
    let mut ends = joined(&rt, 0)?;
    assert!(rt; ends.is_asked()?);
    ends.server.write_all(b"unasked")?;
    pause(&rt);
    assert!(rt; ends.link.write(b"?").is_ok());
    ends.server = accept(&rt, &ends.listener)?;
    assert!(rt; ends.is_answered()?);
    Ok(())
}

#[test]
fn a_connection_that_was_closed_while_idle_is_made_anew(rt: HostRuntime) -> Result<(), Fail> {
    let mut ends = joined(&rt, 0)?;
    assert!(rt; ends.is_asked()?);
    ends.server.shutdown(std::net::Shutdown::Both)?;
    pause(&rt);
    assert!(rt; ends.link.write(b"?").is_ok());
    ends.server = accept(&rt, &ends.listener)?;
    assert!(rt; ends.is_answered()?);
    Ok(())
}
