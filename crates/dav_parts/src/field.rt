ghost use Rattle.std.specs.Prelude.{◌≡◌, length, map, All};
ghost use Rattle.std.specs.List.{list_any};
ghost use Rattle.httparse.specs.Spans.{IsHeaderWithin, header_bytes};
ghost use Rattle.dav_parts.specs.Fields.{is_same_name, values_of, AreValues};

use httparse::spans::HeaderSpan;

/// The values that a head's fields of one name have, as far as it matters.
#[derive(Clone, Copy, Debug)]
pub enum FieldValue<'a> {
    Absent,
    Single(&'a [u8]),
    Repeated,
}

/// Whether both are one name of a field, which has no case.
fn is_same_name(one: &[u8], other: &[u8]) -> bool
    ensures { result ≡ is_same_name one.now other.now }
{
    one.eq_ignore_ascii_case(other)
}

/// The values under a name, of fields that stand at these places of a text.
pub fn field_value<'a>(text: &'a [u8], fields: &[HeaderSpan], name: &[u8]) -> FieldValue<'a>
    requires { All (IsHeaderWithin (length text.now)) fields.now }
    ensures { AreValues result (values_of name.now (map (header_bytes text.now) fields.now)) }
{
    let mut found = FieldValue::Absent;
    for field in fields {
        if is_same_name(field.name.of(text), name) {
            found = match found {
                FieldValue::Absent => FieldValue::Single(field.value.of(text)),
                _ => FieldValue::Repeated,
            };
        }
    }
    found
}

/// Whether a field of this name has this value, in letters of either case.
pub fn has_value(text: &[u8], fields: &[HeaderSpan], name: &[u8], value: &[u8]) -> bool
    requires { All (IsHeaderWithin (length text.now)) fields.now }
    ensures { result ≡ list_any (is_same_name value.now)
        (values_of name.now (map (header_bytes text.now) fields.now)) }
{
    let mut found = false;
    for field in fields {
        if is_same_name(field.name.of(text), name) && is_same_name(value, field.value.of(text)) {
            found = true;
        }
    }
    found
}
