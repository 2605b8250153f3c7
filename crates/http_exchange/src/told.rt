ghost use Rattle.std.specs.Prelude.{◌≡◌, codes, length, map, take, All};
ghost use Rattle.httparse.specs.Spans.{IsHeaderWithin, IsResponseWithin, header_bytes};
ghost use Rattle.http1.specs.Conn.{keeps_alive};
ghost use Rattle.dav_parts.specs.Fields.{values_of};
ghost use Rattle.http_exchange.specs.Heads.{announced_length, differs_from, ends_with_link, one_moment, own_moment, told_from};

use dav_parts::{FieldValue, field_value, read_moment};
use http1::fields::{KnownFields, TransferEncoding};
use http1::framing::{Framing, MethodKind, response_framing};
use httparse::spans::{HeaderSpan, ResponseSpans};

/// What the head of a response tells.
#[derive(Clone, Copy, Debug, PartialEq, Eq)]
pub struct Told {
    pub status: u16,
    /// The moment of its one date, in milliseconds since 1970. None also if the response comes out of a cache, or if
    /// its body is coded, as by gzip: then it isn't the server's own of that moment.
    pub moment: Option<u64>,
    /// How many bytes its body has, if it has a length.
    pub length: Option<u64>,
    /// Whether its body goes on until the link ends: then nobody can tell whether it was cut.
    pub endless: bool,
    /// Whether the connection stays behind it.
    pub lasting: bool,
}

/// The moment of the one date. None if there is none, or more than one, or if it is no date.
fn one_moment(input: &[u8], fields: &[HeaderSpan]) -> Option<u64>
    requires { All (IsHeaderWithin (length input.now)) fields.now }
    ensures { result
        ≡ one_moment (values_of (codes "date") (map (header_bytes input.now) fields.now)) }
{
    match field_value(input, fields, b"date") {
        FieldValue::Single(value) => read_moment(value),
        _ => None,
    }
}

/// Whether a field says another thing than it does where there is none.
fn differs_from(input: &[u8], fields: &[HeaderSpan], name: &[u8], usual: &[u8]) -> bool
    requires { All (IsHeaderWithin (length input.now)) fields.now }
    ensures { result
        ≡ differs_from usual.now (values_of name.now (map (header_bytes input.now) fields.now)) }
{
    match field_value(input, fields, name) {
        FieldValue::Absent => false,
        FieldValue::Single(value) => value != usual,
        FieldValue::Repeated => true,
    }
}

/// The moment of the one date, of a response that no cache kept and no coding changed.
fn own_moment(input: &[u8], fields: &[HeaderSpan]) -> Option<u64>
    requires { All (IsHeaderWithin (length input.now)) fields.now }
    ensures { result ≡ own_moment (map (header_bytes input.now) fields.now) }
{
    let kept = differs_from(input, fields, b"age", b"0");
    let coded = differs_from(input, fields, b"content-encoding", b"identity");
    if kept || coded {
        return None;
    }
    one_moment(input, fields)
}

/// Whether a body goes on until the link ends.
fn ends_with_link(status: u16, minor: u8, known: &KnownFields) -> bool
    ensures { result ≡ ends_with_link status minor known.now }
{
    match response_framing(MethodKind::Other, status, minor, known) {
        Ok(Framing::UntilClose) => true,
        _ => false,
    }
}

/// How many bytes a body has, if it has a length.
fn announced_length(status: u16, minor: u8, known: &KnownFields) -> Option<u64>
    ensures { result ≡ announced_length status minor known.now }
{
    match response_framing(MethodKind::Other, status, minor, known) {
        Ok(Framing::Length(length)) => Some(length),
        _ => None,
    }
}

/// Whether the connection stays behind a message of this version and with these fields.
fn keeps_alive(minor: u8, known: &KnownFields) -> bool
    ensures { result ≡ keeps_alive minor known.now }
{
    let coded = !matches!(known.transfer_encoding, TransferEncoding::Absent);
    !known.close && (minor > 0 || (known.keep_alive && !coded))
}

/// What a head tells, of which the spans say where its parts stand.
pub(crate) fn told_from(input: &[u8], spans: &[HeaderSpan], head: &ResponseSpans) -> Told
    requires { IsResponseWithin input.now spans.now head.now }
    ensures { result ≡ told_from head.now.code head.now.version
        (map (header_bytes input.now) (take head.now.headers spans.now)) }
{
    let fields = &spans[..head.headers];
    let known = KnownFields::from_spans(input, fields);
    let endless = ends_with_link(head.code, head.version, &known);
    let length = announced_length(head.code, head.version, &known);
    Told {
        status: head.code,
        moment: own_moment(input, fields),
        length,
        endless,
        lasting: keeps_alive(head.version, &known) && !endless,
    }
}
