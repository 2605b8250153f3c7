ghost use Rattle.std.specs.Prelude.{◌≡◌, ◌≤◌, ◌++◌, ℕ, [], IfOk, OnOk};
ghost use Rattle.httpdate.specs.Date.{date_text};
ghost use Rattle.jop_base.specs.declared.time.TheConstants.{MAX_TIME};
ghost use Rattle.jop_target.specs.Replies.{IsReplyTo};
ghost use Rattle.jop_target.specs.declared.reply.Reply.{Reply};
ghost use Rattle.dav_wire.specs.ResponseTexts.{status_text, status_line, date_line, type_line, end_lines, IsResponse, status_of, moment_or, plain_body, IsListingBody, IsResponseTo};

use crate::request_writer::append_length;
use dav_parts::{date_of, write_multistatus};
use httpdate::HttpDate;
use jop_base::{Bytes, Copied};
use jop_target::{Call, Listing, Reply};
use std::alloc::{AllocError, Global};

/// A status and its phrase.
fn status_text(status: u16) -> &'static [u8]
    ensures { result.now ≡ status_text status }
{
    match status {
        207 => b"207 Multi-Status",
        200 => b"200 OK",
        201 => b"201 Created",
        204 => b"204 No Content",
        404 => b"404 Not Found",
        400 => b"400 Bad Request",
        403 => b"403 Forbidden",
        405 => b"405 Method Not Allowed",
        413 => b"413 Content Too Large",
        _ => b"500 Internal Server Error",
    }
}

#[tactic(auto, unfolding(crate::specs::ResponseTexts::status_line))]
fn status_line(alloc: Global, status: u16) -> Result<Bytes, AllocError>
    ensures { IfOk result (λ text. text ≡ status_line status) }
{
    let mut text = Bytes::new(alloc);
    text.append(b"HTTP/1.1 ")?;
    text.append(status_text(status))?;
    text.append(b"\r\n")?;
    Ok(text)
}

#[tactic(auto, unfolding(crate::specs::ResponseTexts::date_line))]
fn append_date(text: &mut Bytes, date: HttpDate) -> Result<(), AllocError>
    ensures { OnOk result (text.new ≡ text.old ++ date_line (date_text date)) }
{
    text.append(b"Date: ")?;
    text.append(&date.to_bytes())?;
    text.append(b"\r\n")?;
    Ok(())
}

#[tactic(auto, unfolding(crate::specs::ResponseTexts::type_line))]
fn type_line(status: u16) -> &'static [u8]
    ensures { result.now ≡ type_line status }
{
    if status == 207 {
        b"Content-Type: application/xml; charset=\"utf-8\"\r\n"
    } else {
        b""
    }
}

#[tactic(auto, unfolding(crate::specs::ResponseTexts::end_lines))]
fn append_end(alloc: Global, text: &mut Bytes, status: u16, count: u64) -> Result<(), AllocError>
    ensures { OnOk result (text.new ≡ text.old ++ end_lines status count) }
{
    if status == 204 {
        text.append(b"\r\n")?;
    } else {
        append_length(alloc, text, count)?;
    }
    Ok(())
}

/// The response of a status, at a moment in milliseconds since 1970, rounded down to seconds.
#[tactic(auto, unfolding(crate::specs::ResponseTexts::response_text))]
fn respond(alloc: Global, status: u16, moment: u64, body: &[u8]) -> Result<Bytes, AllocError>
    requires { moment ≤ MAX_TIME }
    ensures { IfOk result (IsResponse status moment body.now) }
{
    let date = date_of(moment);
    let mut text = status_line(alloc, status)?;
    append_date(&mut text, date)?;
    text.append(type_line(status))?;
    append_end(alloc, &mut text, status, body.len() as u64)?;
    text.append(body)?;
    Ok(text)
}

/// The response to a request that is refused, at a moment in milliseconds since 1970. Of the
/// statuses those that a refusal has are known: 400, 403, 404, 405, 413 and 500; another one that
/// no response has is written as 500.
pub fn write_refusal(alloc: Global, status: u16, date: u64) -> Result<Bytes, AllocError>
    requires { date ≤ MAX_TIME }
    ensures { IfOk result (IsResponse status date []) }
{
    let text = respond(alloc, status, date, b"")?;
    Ok(text)
}

fn status_of(call: &Call, reply: &Reply) -> u16
    ensures { result ≡ status_of call.now reply.now }
{
    match reply {
        Reply::Listed(_) => 207,
        Reply::Got { .. } | Reply::GotBlob { .. } => 200,
        Reply::Absent { .. } => 404,
        Reply::Done { .. } => done_status(call),
        Reply::Failed => 500,
        Reply::TooLarge { .. } => 413,
    }
}

/// The status by which it is told that a call is done.
fn done_status(call: &Call) -> u16
    ensures { (now : ℕ) → result ≡ status_of call.now (Reply.Done now) }
{
    match call {
        Call::Delete(_) => 204,
        _ => 201,
    }
}

fn moment_of(reply: &Reply, date: u64) -> u64
    ensures { result ≡ moment_or reply.now date }
{
    match reply {
        Reply::Listed(listing) => listing.now,
        Reply::Got { now, .. }
        | Reply::GotBlob { now, .. }
        | Reply::Absent { now }
        | Reply::Done { now } => *now,
        Reply::Failed | Reply::TooLarge { .. } => date,
    }
}

/// The body by which any reply but a listing is told.
fn plain_body<'a>(reply: &'a Reply, blob: &'a Bytes) -> &'a [u8]
    ensures { result.now ≡ plain_body reply.now blob.now }
{
    match reply {
        Reply::Got { content, .. } => content.as_slice(),
        Reply::GotBlob { .. } => blob.as_slice(),
        _ => b"",
    }
}

/// The body by which a listing is told.
fn listing_body(alloc: Global, call: &Call, listing: &Listing) -> Result<Bytes, AllocError>
    requires { IsReplyTo call.now (Reply.Listed listing.now) }
    ensures { IfOk result (IsListingBody call.now listing.entry.now.entries) }
{
    match call {
        Call::List(dir) => write_multistatus(alloc, *dir, listing.entries.as_slice()),
        _ => unreachable!(),
    }
}

/// The response that tells the reply to a call. `blob` has the bytes of a blob that was got.
/// `date`, in milliseconds since 1970, stands in the response if the reply has no moment.
pub fn write_response(
    alloc: Global,
    call: &Call,
    reply: &Reply,
    blob: &Bytes,
    date: u64,
) -> Result<Bytes, AllocError>
    requires reply { IsReplyTo call.now reply.now }
    requires date { date ≤ MAX_TIME }
    ensures { IfOk result (IsResponseTo call.now reply.now blob.now date) }
{
    let status = status_of(call, reply);
    let moment = moment_of(reply, date);
    match reply {
        Reply::Listed(listing) => {
            let body = listing_body(alloc, call, listing)?;
            let text = respond(alloc, status, moment, body.as_slice())?;
            Ok(text)
        }
        _ => {
            let text = respond(alloc, status, moment, plain_body(reply, blob))?;
            Ok(text)
        }
    }
}
