ghost use Rattle.std.specs.Prelude.{◌≡◌, ◌<◌, ◌≤◌, ◌∷◌, ◌++◌, length, true, false, IfOk, MatchOption};
ghost use Rattle.std.specs.List.{list_any};
ghost use Rattle.item_text.specs.Escape.{is_special, escaped_byte, escaped, unescaped};

use jop_base::Text;
use std::alloc::{AllocError, Global};

fn is_special(byte: u8) -> bool
    ensures { result ≡ is_special byte }
{
    matches!(byte, b'\\' | b'\n' | b'\r')
}

/// The text before the first special byte, that byte, and the text after it. None if none is special.
fn cut_special(text: &str) -> Option<(&str, u8, &str)>
    ensures { MatchOption result (list_any is_special text.now ≡ false)
        (λ x. (list_any is_special x.0.now ≡ false) × (is_special x.1 ≡ true)
        × (text.now ≡ x.0.now ++ x.1 ∷ x.2.now)) }
{
    let bytes = text.as_bytes();
    for i in 0..bytes.len() {
        if is_special(bytes[i]) {
            return Some((&text[..i], bytes[i], &text[i + 1..]));
        }
    }
    None
}

/// What stands for a special byte.
fn escape_of(byte: u8) -> &'static str
    requires { is_special byte ≡ true }
    ensures { result.now ≡ escaped_byte byte }
{
    match byte {
        b'\n' => "\\n",
        b'\r' => "\\r",
        _ => "\\\\",
    }
}

/// The value on one line: a backslash as two, a line feed as `\n` and a carriage return as `\r`.
pub fn escape_value(alloc: Global, value: &Text) -> Result<Text, AllocError>
    ensures { IfOk result (λ made. made ≡ escaped value.now) }
{
    let mut out = Text::new(alloc);
    let mut rest = value.as_str();
    while let Some((front, byte, after)) = cut_special(rest) {
        out.append(front)?;
        out.append(escape_of(byte))?;
        rest = after;
    }
    out.append(rest)?;
    Ok(out)
}

/// What a backslash before the text stands for, and the text behind that.
fn after_backslash(text: &str) -> (char, &str)
    ensures ascii { result.0 < 128 }
    ensures shorter { length result.1.now ≤ length text.now }
    ensures meant { unescaped (92 ∷ text.now) ≡ result.0 ∷ unescaped result.1.now }
{
    if let Some(behind) = text.strip_prefix('\\') {
        return ('\\', behind);
    }
    if let Some(behind) = text.strip_prefix('n') {
        return ('\n', behind);
    }
    if let Some(behind) = text.strip_prefix('r') {
        return ('\r', behind);
    }
    ('\\', text)
}

/// The value that an escaped one stands for. From left to right `\\`, `\n` and `\r` are undone; every other backslash
/// stays.
pub fn unescape_value(alloc: Global, value: &Text) -> Result<Text, AllocError>
    ensures { IfOk result (λ made. made ≡ unescaped value.now) }
{
    let mut out = Text::new(alloc);
    let mut rest = value.as_str();
    while let Some((front, after)) = rest.split_once('\\') {
        out.append(front)?;
        let (meant, behind) = after_backslash(after);
        out.push(meant)?;
        rest = behind;
    }
    out.append(rest)?;
    Ok(out)
}
