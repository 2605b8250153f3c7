//! What the definitions promise. Each law is a function with nothing to do, whose contract says it.

ghost use Rattle.std.specs.Prelude.{◌≡◌, ◌⊎◌, ℕ, Bool, List, false};
ghost use Rattle.http1.specs.declared.conn.BodySize.TheVariants.{Known};
ghost use Rattle.jop_base.specs.declared.dir.Dir.{Dir};
ghost use Rattle.jop_target.specs.declared.call.Call.{Call};
ghost use Rattle.jop_target.specs.declared.call.Call.TheVariants as calls;
ghost use Rattle.jop_target.specs.declared.reply.Reply.{Reply};
ghost use Rattle.http_exchange.specs.Texts.{asks_to_upgrade};
ghost use Rattle.http_exchange.specs.declared.told.Told.{Told};
ghost use Rattle.webdav_calls.specs.Asking.{site_fields};
ghost use Rattle.webdav_calls.specs.Outcomes.{call_outcome};
ghost use Rattle.webdav_calls.specs.Replies.{IsResponseReply};
ghost use Rattle.webdav_calls.specs.Sites.{SiteView};
ghost use Rattle.webdav_calls.specs.declared.outcome.Outcome.TheVariants as outcomes;

/// No status tells that a folder is absent: one that is missing is a failure, and no empty one.
pub fn a_listing_is_never_absent()
    ensures { (dir : Dir) (told : Told)
        → ¬ (call_outcome (calls.List dir) told ≡ outcomes.Absent) }
{}

/// A file is taken from a 200 alone, whose body doesn't go on until the link ends: so from none that may be cut.
pub fn content_has_an_end()
    ensures { (call : Call) (told : Told)
        → (call_outcome call told ≡ outcomes.Content) ⊎ (call_outcome call told ≡ outcomes.Blob)
        → (told.status ≡ 200) × (told.endless ≡ false) }
{}

/// No request asks for another protocol, whatever the site.
pub fn a_request_keeps_the_protocol()
    ensures { (site : SiteView) (lists : Bool) (count : ℕ)
        → asks_to_upgrade (Known count) (site_fields site lists) ≡ false }
{}

/// A response to a call is one reply at most.
pub fn a_response_is_one_reply()
    ensures { (call : Call) (told : Told) (folder body : List ℕ) (one other : Reply)
        → IsResponseReply call told folder body one → IsResponseReply call told folder body other
        → one ≡ other }
{}
