ghost use Rattle.std.specs.Prelude.{◌≡◌, IfOk, None, false};
ghost use Rattle.jop_target.specs.Replies.{IsReplyTo, HasReplyCause, Answers, KeepsBlob};
ghost use Rattle.target_webdav.specs.Budgets.{came_limit, kept_limit as kept_bytes};
ghost use Rattle.target_webdav.specs.Clients.{site_client_now};
ghost use Rattle.target_webdav.specs.Marks.{mark_after, no_mark};
ghost use Rattle.target_webdav.specs.Serving.{AnswersOver, AsksOver, BeginsAsking, IsSameClient, IsTrueReply, ServesOver, blob_got, reply_if_true};
ghost use Rattle.jop_target.specs.declared.reply.Reply.TheVariants.{Failed as FailedReply};
ghost use Rattle.webdav_calls.specs.Asking.{AsksSite};
ghost use Rattle.std.specs.Prelude.{◌↔◌, IsTrue};

use crate::budget::kept_limit;
use crate::folder::listed_folder;
use crate::mark::Mark;
use crate::trouble::{Trouble, trouble_line};
use dav_link::{Link, LinkErr};
use http_exchange::Received;
use jop_base::Bytes;
use jop_outside::{Failed, Faults, Sink, write_whole};
use jop_target::{Call, Reply, Target};
use std::alloc::{AllocError, Global};
use std::marker::Model;
use webdav_calls::{Site, ask, reply_of};

/// A target that a WebDAV server holds, over a link that is kept for all its calls. It tells no store, since no clause
/// can say what a server holds.
///
/// **A call** is one request, written whole before anything is read, and the response to it. Its moment is the `Date`
/// of the response less a second, in milliseconds since 1970.
///
/// **Faults.** The count rises, and the answer is `Failed`, exactly if the link failed, if no whole response came, if
/// it is no reply to this call, or if it disagrees with what the server told before: then its clock is false, or it
/// shows another folder. The call may have landed all the same. What is known of the trouble is written into a sink
/// then, as a line; whether that fails is nobody's matter.
///
/// **The link** is opened before the first call, and anew before a call that comes after `Failed`, after want of
/// memory, after a response with `Connection: close`, and after one behind which bytes came that nobody asked for. No
/// request is sent twice.
///
/// **Memory.** At most 256 MiB of a listing of the root are kept, 8 MiB of one of another folder, 64 MiB of a blob,
/// and 16 MiB of any other body. A file that is announced to be longer than its limit is `TooLarge`; what turns out to
/// be longer, in chunks, is a fault.
#[derive(Drop)]
pub struct WebDavTarget<L, S> {
    pub link: L,
    site: Site,
    /// Whether the next call goes on with the link as it is.
    ready: bool,
    mark: Mark,
    faults: Faults,
    trouble: Trouble,
    /// What is told of calls that failed is written into it.
    pub terminal: S,
}

impl<L, S> Model for WebDavTarget<L, S> {
    ghost use Rattle.target_webdav.specs.Clients.{SiteClient};

    ghost Value = { SiteClient L };

    ghost view = { λ t. record {
      link = t.link;
      site = t.site;
      ready = t.ready;
      mark = t.mark;
      faults = t.faults;
    } };
}

/// A reply that disagrees with what is remembered is a failure.
fn reply_if_true(mark: &Mark, call: &Call, reply: Reply) -> Reply
    ensures { result ≡ reply_if_true mark.now call.now reply }
{
    if mark.is_reply_true(call, &reply) {
        reply
    } else {
        Reply::Failed
    }
}

fn is_failed(reply: &Reply) -> bool
    ensures { IsTrue result ↔ (reply.now ≡ FailedReply) }
{
    matches!(reply, Reply::Failed)
}

/// Leaves the bytes of a blob that was got, and else none.
fn leave(reply: &Reply, body: Bytes, blob: &mut Bytes)
    ensures { blob.new ≡ blob_got reply.now blob.old body }
{
    match reply {
        Reply::GotBlob { .. } => *blob = body,
        _ => {}
    }
}

impl<L: Link, S: Sink + Drop> WebDavTarget<L, S> {
    /// A target over a link that isn't open yet, at a site. Lines on what goes wrong are written into the sink.
    pub fn new(link: L, site: Site, terminal: S) -> WebDavTarget<L, S>
        ensures { result ≡ record {
          link = link;
          site = site;
          ready = false;
          mark = no_mark;
          faults = 0;
        } }
    {
        WebDavTarget {
            link,
            site,
            ready: false,
            mark: Mark::none(),
            faults: Faults::new(),
            trouble: Trouble::Unanswered,
            terminal,
        }
    }

    /// How often it has failed.
    pub fn faults(&self) -> u64
        ensures { result ≡ self.now.faults }
    {
        self.faults.count()
    }

    /// Says what went wrong.
    fn complain(&mut self, alloc: Global, call: &Call)
        ensures { self.new ≡ self.old }
    {
        let trouble = self.trouble;
        if let Ok(line) = trouble_line(alloc, call, trouble) {
            let _ = write_whole(&mut self.terminal, line.as_bytes());
        }
    }

    /// Opens the link, unless the last call left it ready.
    fn begin(&mut self) -> Result<(), Failed>
        ensures begins { BeginsAsking (site_client_now L.state self.old) result
            (site_client_now L.state self.new) }
        ensures same { IsSameClient self.old self.new }
    {
        if self.ready {
            self.ready = false;
            return Ok(());
        }
        self.link.open()
    }

    /// Asks over the open link.
    fn ask_on(&mut self, alloc: Global, call: &Call, blob: &Bytes) -> Result<Received, LinkErr>
        ensures asks { AsksSite self.old.site call.now blob.now (L.state self.old.link)
            (kept_bytes call.now) (came_limit call.now) result (L.state self.new.link) }
        ensures ready { self.new.ready ≡ self.old.ready }
        ensures same { IsSameClient self.old self.new }
    {
        let limit = kept_limit(call);
        let most = limit as u64 * 2;
        match ask(alloc, &mut self.link, &self.site, call, blob, limit, most) {
            Ok(received) => {
                self.trouble = Trouble::Status(received.told.status);
                Ok(received)
            }
            Err(error) => Err(error),
        }
    }

    /// Asks, over a link that is opened first, unless the last call left it ready.
    fn ask(&mut self, alloc: Global, call: &Call, blob: &Bytes) -> Result<Received, LinkErr>
        ensures asks { AsksOver L.state call.now blob.now self.old result self.new }
        ensures same { IsSameClient self.old self.new }
    {
        self.trouble = Trouble::Unanswered;
        match self.begin() {
            Ok(()) => self.ask_on(alloc, call, blob),
            Err(_) => Err(LinkErr::Fault),
        }
    }

    /// The reply that a response is.
    fn true_reply(
        &self,
        alloc: Global,
        call: &Call,
        received: &Received,
    ) -> Result<Reply, AllocError>
        ensures { IfOk result (IsTrueReply self.now.site self.now.mark call.now received.now.told
            received.now.body) }
    {
        let folder = listed_folder(alloc, &self.site, call)?;
        let heard = reply_of(alloc, call, received.told, &folder, &received.body)?;
        Ok(reply_if_true(&self.mark, call, heard))
    }

    /// The reply of a response, which is remembered. The bytes of a blob that was got are left in `blob`.
    fn accept(&mut self, call: &Call, reply: Reply, received: Received, blob: &mut Bytes) -> Reply
        ensures reply { result ≡ reply }
        ensures blob { blob.new ≡ blob_got reply blob.old received.body }
        ensures ready { self.new.ready ≡ received.ready }
        ensures mark { self.new.mark ≡ mark_after self.old.mark call.now reply }
        ensures link { self.new.link ≡ self.old.link }
        ensures others { (self.new.site ≡ self.old.site) × (self.new.faults ≡ self.old.faults) }
    {
        let Received {
            told: _,
            body,
            ready,
        } = received;
        self.ready = ready;
        self.mark = self.mark.after(call, &reply);
        leave(&reply, body, blob);
        reply
    }

    /// Makes a call over the link.
    fn answer(&mut self, alloc: Global, call: &Call, blob: &mut Bytes) -> Result<Reply, LinkErr>
        ensures answers { AnswersOver L.state call.now blob.old self.old result self.new blob.new }
        ensures others { (self.new.site ≡ self.old.site) × (self.new.faults ≡ self.old.faults) }
    {
        let received = match self.ask(alloc, call, blob) {
            Ok(received) => received,
            Err(error) => return Err(error),
        };
        let reply = match self.true_reply(alloc, call, &received) {
            Ok(reply) => reply,
            Err(_) => return Err(LinkErr::NoMemory),
        };
        if is_failed(&reply) {
            return Err(LinkErr::Fault);
        }
        Ok(self.accept(call, reply, received, blob))
    }
}

impl<L: Link, S: Sink + Drop> Target for WebDavTarget<L, S> {
    ghost state = { λ t. record { store = None; faults = t.faults } };

    fn call(&mut self, alloc: Global, call: &Call, blob: &mut Bytes) -> Result<Reply, AllocError>
        ensures shape { IfOk result (λ reply. IsReplyTo call.now reply) }
        ensures cause { HasReplyCause self.old.faults result self.new.faults }
        ensures answers { Answers None call.now blob.old result None }
        ensures blob { KeepsBlob None call.now blob.old result blob.new }

        ensures exchange { ServesOver L.state call.now blob.old self.old result self.new blob.new }
        ensures site { self.new.site ≡ self.old.site }
    {
        match self.answer(alloc, call, blob) {
            Ok(reply) => Ok(reply),
            Err(LinkErr::NoMemory) => Err(AllocError),
            Err(LinkErr::Fault | LinkErr::TooLong) => {
                self.faults.rise();
                self.complain(alloc, call);
                Ok(Reply::Failed)
            }
        }
    }
}
