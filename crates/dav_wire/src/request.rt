ghost use Rattle.std.specs.Prelude.{◌≡◌, [], None, List, ℕ, IfOk, MatchOption, length, map, All, codes};
ghost use Rattle.httparse.specs.Spans.{IsHeaderWithin, header_bytes};
ghost use Rattle.jop_base.specs.Paths.{IsPath};
ghost use Rattle.jop_target.specs.declared.call.Call.{Call};
ghost use Rattle.dav_parts.specs.Fields.{values_of};
ghost use Rattle.dav_parts.specs.Targets.{path_target};
ghost use Rattle.dav_parts.specs.declared.method.Method.{Method};
ghost use Rattle.dav_wire.specs.Requests.{AsksFor, IsCallOrRefusal, IsRequestFrom, is_one, unnamed_status};

use dav_parts::{FieldValue, Method, field_value, has_value, read_dir, read_path};
use httparse::spans::HeaderSpan;
use jop_base::{Bytes, Path};
use jop_target::Call;
use std::alloc::{AllocError, Global};

/// What a whole request asks for.
#[derive(Debug, Drop)]
pub struct Request {
    /// None if the request is refused.
    pub call: Option<Call>,
    /// The bytes of the blob that is put, and else none.
    pub blob: Bytes,
    /// Whether the connection ends after the response.
    pub close: bool,
    /// The status of the refusal, and 0 for a call.
    pub refusal: u16,
}

/// The call that gets a file.
fn get_call(path: Path) -> Call
    requires { IsPath path }
    ensures { (body : List ℕ) → AsksFor Method.Get (path_target path) body result [] }
{
    match path {
        Path::Blob(id) => Call::GetBlob(id),
        _ => Call::Get(path),
    }
}

/// The call that puts a file, and the bytes of the blob that it puts.
fn put_call(alloc: Global, path: Path, body: &[u8]) -> Result<(Call, Bytes), AllocError>
    requires { IsPath path }
    ensures { IfOk result
        (λ put. AsksFor Method.Put (path_target path) body.now put.0 put.1) }
{
    let bytes = Bytes::from_vec(body.to_vec(alloc)?);
    match path {
        Path::Blob(id) => {
            let len = body.len() as u64;
            Ok((Call::PutBlob { id, len }, bytes))
        }
        _ => Ok((Call::Put(path, bytes), Bytes::new(alloc))),
    }
}

/// The call that a request asks for, with the bytes of the blob that it puts. None if it asks for none.
fn asked(
    alloc: Global,
    method: Method,
    target: &[u8],
    body: &[u8],
) -> Result<Option<(Call, Bytes)>, AllocError>
    ensures { IfOk result (λ asked. MatchOption asked
        ((call : Call) (bytes : List ℕ) → ¬ (AsksFor method target.now body.now call bytes))
        (λ x. AsksFor method target.now body.now x.0 x.1)) }
{
    match method {
        Method::List => match read_dir(target) {
            Some(dir) => Ok(Some((Call::List(dir), Bytes::new(alloc)))),
            None => Ok(None),
        },
        Method::MakeDir => match read_dir(target) {
            Some(dir) => Ok(Some((Call::MakeDir(dir), Bytes::new(alloc)))),
            None => Ok(None),
        },
        Method::Get => match read_path(target) {
            Some(path) => Ok(Some((get_call(path), Bytes::new(alloc)))),
            None => Ok(None),
        },
        Method::Delete => match read_path(target) {
            Some(path) => Ok(Some((Call::Delete(path), Bytes::new(alloc)))),
            None => Ok(None),
        },
        Method::Put => match read_path(target) {
            Some(path) => {
                let put = put_call(alloc, path, body)?;
                Ok(Some(put))
            }
            None => Ok(None),
        },
    }
}

/// A request that is refused with a status.
fn refused(alloc: Global, refusal: u16, close: bool) -> Request
    ensures { result ≡ record { call = None; blob = []; close = close; refusal = refusal } }
{
    Request {
        call: None,
        blob: Bytes::new(alloc),
        close,
        refusal,
    }
}

/// The status for a target that names nothing.
fn unnamed_status(method: Method) -> u16
    ensures { result ≡ unnamed_status method }
{
    match method {
        Method::Put | Method::MakeDir => 403,
        _ => 404,
    }
}

/// The request of a known method.
fn request_by(
    alloc: Global,
    method: Method,
    target: &[u8],
    body: &[u8],
    close: bool,
) -> Result<Request, AllocError>
    ensures asked { IfOk result
        (λ r. IsCallOrRefusal method target.now body.now r.call r.blob r.refusal) }
    ensures close { IfOk result (λ r. r.close ≡ close) }
{
    match asked(alloc, method, target, body)? {
        Some((call, blob)) => Ok(Request {
            call: Some(call),
            blob,
            close,
            refusal: 0,
        }),
        None => Ok(refused(alloc, unnamed_status(method), close)),
    }
}

/// Whether the fields ask for the files of the folder itself and no deeper ones.
fn is_one_deep(text: &[u8], fields: &[HeaderSpan]) -> bool
    requires { All (IsHeaderWithin (length text.now)) fields.now }
    ensures { result ≡ is_one (values_of (codes "depth") (map (header_bytes text.now) fields.now)) }
{
    match field_value(text, fields, b"depth") {
        FieldValue::Single(value) => value == b"1".as_slice(),
        _ => false,
    }
}

/// The request of a head and its body. The head's fields stand at these places of its text.
pub(crate) fn request_of(
    alloc: Global,
    method: &[u8],
    target: &[u8],
    text: &[u8],
    fields: &[HeaderSpan],
    body: &[u8],
) -> Result<Request, AllocError>
    requires { All (IsHeaderWithin (length text.now)) fields.now }
    ensures { IfOk result (IsRequestFrom method.now target.now
        (map (header_bytes text.now) fields.now) body.now) }
{
    let close = has_value(text, fields, b"connection", b"close");
    let one = is_one_deep(text, fields);
    match Method::read(method) {
        None => Ok(refused(alloc, 405, close)),
        Some(Method::List) if !one => Ok(refused(alloc, 400, close)),
        Some(method) => {
            let request = request_by(alloc, method, target, body, close)?;
            Ok(request)
        }
    }
}
