ghost use Rattle.std.specs.Prelude.{◌≡◌, ◌++◌, ℕ, List, IfOk, OnOk, take, drop};
ghost use Rattle.dav_parts.specs.Targets.{method_of, target_of};
ghost use Rattle.dav_wire.specs.Requests.{body_of, depth_line, start_line, host_line, length_lines, request_text};

use dav_parts::{Method, append_decimal, dir_target, path_target};
use jop_base::{Bytes, Path, Text};
use jop_target::Call;
use std::alloc::{AllocError, Global};

/// How many bytes of a body are written with its head.
const FIRST_LIMIT: usize = 65_536;

/// The method by which a call is sent.
fn method_of(call: &Call) -> Method
    ensures { result ≡ method_of call.now }
{
    match call {
        Call::List(_) => Method::List,
        Call::Get(_) | Call::GetBlob(_) => Method::Get,
        Call::Put(..) | Call::PutBlob { .. } => Method::Put,
        Call::Delete(_) => Method::Delete,
        Call::MakeDir(_) => Method::MakeDir,
    }
}

/// What a call is sent to.
fn target_of(alloc: Global, call: &Call) -> Result<Bytes, AllocError>
    ensures { IfOk result (λ text. text ≡ target_of call.now) }
{
    match call {
        Call::List(dir) | Call::MakeDir(dir) => {
            let mut text = Bytes::new(alloc);
            text.append(dir_target(*dir))?;
            Ok(text)
        }
        Call::Get(path) | Call::Put(path, _) | Call::Delete(path) => path_target(alloc, path),
        Call::GetBlob(id) | Call::PutBlob { id, .. } => path_target(alloc, &Path::Blob(*id)),
    }
}

/// The body with which a call is sent.
fn body_of<'a>(call: &'a Call, blob: &'a Bytes) -> &'a [u8]
    ensures { result.now ≡ body_of call.now blob.now }
{
    match call {
        Call::Put(_, content) => content.as_slice(),
        Call::PutBlob { .. } => blob.as_slice(),
        _ => b"",
    }
}

/// The line of a field that a listing alone has.
fn depth_line(call: &Call) -> &'static [u8]
    ensures { result.now ≡ depth_line call.now }
{
    match call {
        Call::List(_) => b"Depth: 1\r\n",
        _ => b"",
    }
}

/// The request line.
#[tactic(auto, unfolding(crate::specs::Requests::start_line))]
fn start_line(alloc: Global, call: &Call) -> Result<Bytes, AllocError>
    ensures { IfOk result (λ text. text ≡ start_line call.now) }
{
    let mut text = Bytes::new(alloc);
    text.append(method_of(call).as_str().as_bytes())?;
    text.append(b" ")?;
    text.append(target_of(alloc, call)?.as_slice())?;
    text.append(b" HTTP/1.1\r\n")?;
    Ok(text)
}

#[tactic(auto, unfolding(crate::specs::Requests::host_line))]
fn append_host(text: &mut Bytes, host: &Text) -> Result<(), AllocError>
    ensures { OnOk result (text.new ≡ text.old ++ host_line host.now) }
{
    text.append(b"Host: ")?;
    text.append(host.as_slice())?;
    text.append(b"\r\n")?;
    Ok(())
}

/// Writes the length of a body, and the empty line after the fields, at the end of a text.
#[tactic(auto, unfolding(crate::specs::Requests::length_lines))]
pub(crate) fn append_length(alloc: Global, text: &mut Bytes, count: u64) -> Result<(), AllocError>
    ensures { OnOk result (text.new ≡ text.old ++ length_lines count) }
{
    text.append(b"Content-Length: ")?;
    append_decimal(alloc, text, count)?;
    text.append(b"\r\n\r\n")?;
    Ok(())
}

/// The head of a request whose body has so many bytes.
fn request_head(alloc: Global, host: &Text, call: &Call, count: u64) -> Result<Bytes, AllocError>
    ensures { IfOk result (λ text. (rest : List ℕ) → text ++ rest ≡ start_line call.now
        ++ (host_line host.now ++ (depth_line call.now ++ (length_lines count ++ rest)))) }
{
    let mut text = start_line(alloc, call)?;
    append_host(&mut text, host)?;
    text.append(depth_line(call))?;
    append_length(alloc, &mut text, count)?;
    Ok(text)
}

/// The request by which a call is sent to a host, as `host:port`. `blob` has the bytes of a blob that is put.
#[tactic(auto, unfolding(crate::specs::Requests::request_text))]
pub fn write_request(
    alloc: Global,
    host: &Text,
    call: &Call,
    blob: &Bytes,
) -> Result<Bytes, AllocError>
    ensures { IfOk result (λ text. text ≡ request_text host.now call.now blob.now) }
{
    let body = body_of(call, blob);
    let mut text = request_head(alloc, host, call, body.len() as u64)?;
    text.append(body)?;
    Ok(text)
}

/// The first bytes of a body, and those behind them.
fn split_body(body: &[u8]) -> (&[u8], &[u8])
    ensures first { result.0.now ≡ take FIRST_LIMIT body.now }
    ensures rest { result.1.now ≡ drop FIRST_LIMIT body.now }
{
    if body.len() < FIRST_LIMIT {
        body.split_at(body.len())
    } else {
        body.split_at(FIRST_LIMIT)
    }
}

/// The request by which a call is sent to a host, as `host:port`, in two parts: its head with the
/// first 65,536 bytes of its body, and the rest of the body, of which no copy is made. So one part
/// alone is short, or there is one part. `blob` has the bytes of a blob that is put.
#[tactic(auto, unfolding(crate::specs::Requests::request_text))]
pub fn split_request<'a>(
    alloc: Global,
    host: &Text,
    call: &'a Call,
    blob: &'a Bytes,
) -> Result<(Bytes, &'a [u8]), AllocError>
    ensures whole { IfOk result
        (λ parts. parts.0 ++ parts.1.now ≡ request_text host.now call.now blob.now) }
    ensures rest { IfOk result
        (λ parts. parts.1.now ≡ drop FIRST_LIMIT (body_of call.now blob.now)) }
{
    let body = body_of(call, blob);
    let mut text = request_head(alloc, host, call, body.len() as u64)?;
    let (first, rest) = split_body(body);
    text.append(first)?;
    Ok((text, rest))
}
