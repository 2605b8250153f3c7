ghost use Rattle.std.specs.Prelude.{◌≡◌};
ghost use Rattle.item_text.specs.Lines.{is_blank, trimmed_front, trimmed_end, trimmed, has_text};

fn is_blank(byte: u8) -> bool
    ensures { result ≡ is_blank byte }
{
    matches!(byte, b' ' | b'\t' | b'\x0b' | b'\x0c' | b'\r')
}

fn trimmed_front(text: &str) -> &str
    ensures { result.now ≡ trimmed_front text.now }
{
    let bytes = text.as_bytes();
    let mut start = 0;
    while start < bytes.len() && is_blank(bytes[start]) {
        start += 1;
    }
    &text[start..]
}

fn trimmed_end(text: &str) -> &str
    ensures { result.now ≡ trimmed_end text.now }
{
    let bytes = text.as_bytes();
    let mut end = bytes.len();
    while end > 0 && is_blank(bytes[end - 1]) {
        end -= 1;
    }
    &text[..end]
}

/// The text without the format's blanks at both ends: space, tab, vertical tab, form feed and carriage return. Other
/// white space stays.
#[tactic(auto, unfolding(crate::specs::Lines::trimmed))]
pub fn trimmed(text: &str) -> &str
    ensures { result.now ≡ trimmed text.now }
{
    trimmed_end(trimmed_front(text))
}

/// Whether something is left of the line once it is trimmed.
#[tactic(auto, unfolding(crate::specs::Lines::has_text))]
pub(crate) fn has_text(line: &str) -> bool
    ensures { result ≡ has_text line.now }
{
    !trimmed(line).is_empty()
}
