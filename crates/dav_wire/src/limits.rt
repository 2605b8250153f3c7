ghost use Rattle.std.specs.Prelude.{◌≡◌, take};

/// The most bytes of a head, the empty lines before it and the one after it among them.
pub const HEAD_LIMIT: usize = 16_384;

/// The most fields of a head.
pub const FIELD_LIMIT: usize = 128;

/// Room for more fields than a head of so many bytes can have.
pub(crate) const FIELD_ROOM: usize = 5_461;

/// As many of the bytes as a head may have.
pub(crate) fn head_part(bytes: &[u8]) -> &[u8]
    ensures { result.now ≡ take HEAD_LIMIT bytes.now }
{
    if bytes.len() < HEAD_LIMIT {
        bytes
    } else {
        &bytes[..HEAD_LIMIT]
    }
}
