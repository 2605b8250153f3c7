ghost use Rattle.std.specs.Prelude.{◌≡◌, ◌++◌, IfOk, None, false};
ghost use Rattle.jop_target.specs.Replies.{IsReplyTo, HasReplyCause, Answers, KeepsBlob};
ghost use Rattle.target_dav.specs.Exchanges.{BeginsCall, CallsOver, SendsText, TriesOver, blob_after, client_now, is_ready};

use crate::receiving::{Received, receive};
use crate::sending::write_both;
use dav_link::{Link, LinkErr};
use dav_wire::split_request;
use jop_base::{Bytes, Text};
use jop_outside::{Failed, Faults};
use jop_target::{Call, Reply, Target};
use std::alloc::{AllocError, Global};
use std::marker::Model;

/// A target over a link to a server of WebDAV, which keeps the link for all its calls. It tells no store, since no
/// clause can say what a server holds.
///
/// **A call** is one request, written whole before anything is read, and the response to it. Its moment is the
/// `Date` of the response, in milliseconds since 1970.
///
/// **Faults.** The count rises, and the answer is `Failed`, exactly if the link failed, if it ended before a whole
/// response, if what came is no response to this call, or if it announces a longer body than is waited for. The call
/// may have landed all the same.
///
/// **The link** is opened before the first call, and anew before a call that comes after `Failed`, after `TooLarge`
/// (which is told by the head alone), after want of memory, after a response behind which more bytes came than were
/// asked for, and after one of HTTP/1.0 or with `Connection: close`. No request is sent twice.
///
/// **Memory.** Of a response no more is kept than its reply: a blob stands once, and of a listing its files alone. Of a
/// request the body isn't copied, but for its first 64 KiB. Once a head came at most 256 MiB more are waited for of a
/// listing of the root, 64 MiB of a blob and 16 MiB of any other body. A file that is announced to be longer than its
/// limit is `TooLarge`, and where more would have to be waited for it is a fault.
#[derive(Drop)]
pub struct DavTarget<L> {
    pub link: L,
    /// The host and port that each request names.
    host: Text,
    /// Whether the next call goes on with the link as it is.
    ready: bool,
    faults: Faults,
}

impl<L> Model for DavTarget<L> {
    ghost use Rattle.target_dav.specs.Clients.{ClientOver};

    ghost Value = { ClientOver L };

    ghost view = { λ t. record {
      link = t.link;
      host = t.host;
      ready = t.ready;
      faults = t.faults;
    } };
}

impl<L: Link> DavTarget<L> {
    /// A target over a link that isn't open yet, to a server at `host:port`.
    pub fn new(link: L, host: Text) -> DavTarget<L>
        ensures { result ≡ record { link = link; host = host; ready = false; faults = 0 } }
    {
        DavTarget {
            link,
            host,
            ready: false,
            faults: Faults::new(),
        }
    }

    /// How often it has failed.
    pub fn faults(&self) -> u64
        ensures { result ≡ self.now.faults }
    {
        self.faults.count()
    }

    /// Opens the link, unless the last call left it ready.
    fn begin(&mut self) -> Result<(), Failed>
        ensures begins { BeginsCall (client_now L.state self.old) result (client_now L.state self.new) }
        ensures others { (self.new.host ≡ self.old.host) × (self.new.faults ≡ self.old.faults) }
    {
        if self.ready {
            self.ready = false;
            return Ok(());
        }
        self.link.open()
    }

    /// Writes a request over the link, which stands in two parts.
    fn send(&mut self, first: &[u8], rest: &[u8]) -> Result<(), Failed>
        ensures sends { SendsText (first.now ++ rest.now) (client_now L.state self.old) result
            (client_now L.state self.new) }
        ensures others { (self.new.host ≡ self.old.host) × (self.new.faults ≡ self.old.faults) }
    {
        self.begin()?;
        write_both(&mut self.link, first, rest)?;
        Ok(())
    }

    /// The reply of a response. The bytes of a blob that was got are left in `blob`.
    fn accept(&mut self, received: Received, blob: &mut Bytes) -> Reply
        ensures reply { result ≡ received.reply }
        ensures blob { blob.new ≡ blob_after received.reply blob.old received.blob }
        ensures ready { self.new.ready
            ≡ is_ready received.reply received.lasts received.alone }
        ensures link { self.new.link ≡ self.old.link }
        ensures others { (self.new.host ≡ self.old.host) × (self.new.faults ≡ self.old.faults) }
    {
        let Received {
            reply,
            blob: got,
            alone,
            lasts,
        } = received;
        self.ready = is_ready(&reply, lasts, alone);
        leave(&reply, got, blob);
        reply
    }

    /// Makes a call over the link.
    fn ask(&mut self, alloc: Global, call: &Call, blob: &mut Bytes) -> Result<Reply, LinkErr>
        ensures asks { TriesOver L.state call.now blob.old self.old result self.new blob.new }
        ensures others { (self.new.host ≡ self.old.host) × (self.new.faults ≡ self.old.faults) }
    {
        let (first, rest) = split_request(alloc, &self.host, call, blob)?;
        self.send(first.as_slice(), rest)?;
        let received = receive(alloc, &mut self.link, call)?;
        Ok(self.accept(received, blob))
    }
}

/// Whether a call may follow over the same link, by what was read of a response, whether the server
/// leaves the link open behind it, and whether it came alone.
fn is_ready(reply: &Reply, lasts: bool, alone: bool) -> bool
    ensures { result ≡ is_ready reply.now lasts alone }
{
    match reply {
        Reply::TooLarge { .. } => false,
        _ => lasts && alone,
    }
}

/// Leaves the bytes of a blob that was got, and else none.
fn leave(reply: &Reply, got: Bytes, blob: &mut Bytes)
    ensures { blob.new ≡ blob_after reply.now blob.old got }
{
    match reply {
        Reply::GotBlob { .. } => *blob = got,
        _ => {}
    }
}

impl<L: Link> Target for DavTarget<L> {
    ghost state = { λ t. record { store = None; faults = t.faults } };

    fn call(&mut self, alloc: Global, call: &Call, blob: &mut Bytes) -> Result<Reply, AllocError>
        ensures shape { IfOk result (λ reply. IsReplyTo call.now reply) }
        ensures cause { HasReplyCause self.old.faults result self.new.faults }
        ensures answers { Answers None call.now blob.old result None }
        ensures blob { KeepsBlob None call.now blob.old result blob.new }

        ensures exchange { CallsOver L.state call.now blob.old self.old result self.new blob.new }
        ensures host { self.new.host ≡ self.old.host }
    {
        match self.ask(alloc, call, blob) {
            Ok(reply) => Ok(reply),
            Err(LinkErr::NoMemory) => Err(AllocError),
            Err(LinkErr::Fault | LinkErr::TooLong) => {
                self.faults.rise();
                Ok(Reply::Failed)
            }
        }
    }
}
