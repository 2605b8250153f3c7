ghost use Rattle.std.specs.Prelude.{◌≡◌};
ghost use Rattle.local_commands.specs.Finding.{begins_with, has_part};

/// Whether the part stands at the beginning of the text, letters of ASCII in either case.
fn begins_with(text: &[u8], part: &[u8]) -> bool
    ensures { result ≡ begins_with part.now text.now }
{
    part.len() <= text.len() && text[..part.len()].eq_ignore_ascii_case(part)
}

/// Whether the part stands in the text, letters of ASCII in either case.
pub(crate) fn has_part(text: &[u8], part: &[u8]) -> bool
    ensures { result ≡ has_part part.now text.now }
{
    let mut rest = text;
    while let Some((_, behind)) = rest.split_first() {
        if begins_with(rest, part) {
            return true;
        }
        rest = behind;
    }
    begins_with(rest, part)
}
