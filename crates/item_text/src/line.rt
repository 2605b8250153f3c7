ghost use Rattle.std.specs.Prelude.{◌≡◌, ◌<◌, ◌∷◌, ◌++◌, [], length, IfSome};
ghost use Rattle.item_text.specs.Lines.{lines};
ghost use Rattle.item_text.specs.Steps.{lines_of};

/// The lines above the last one, if there are any, and the last one.
pub(crate) fn last_line(text: &str) -> (Option<&str>, &str)
    ensures cut { lines text.now ≡ lines_of result.0 ++ result.1.now ∷ [] }
    ensures at_feed { IfSome result.0 (λ above. text.now ≡ above.now ++ 10 ∷ result.1.now) }
    ensures shorter { IfSome result.0 (λ above. length above.now < length text.now) }
{
    match text.rsplit_once('\n') {
        None => (None, text),
        Some((above, line)) => (Some(above), line),
    }
}

/// The first line, and the lines below it, if there are any.
pub(crate) fn first_line(text: &str) -> (&str, Option<&str>)
    ensures cut { lines text.now ≡ result.0.now ∷ lines_of result.1 }
    ensures shorter { IfSome result.1 (λ below. length below.now < length text.now) }
{
    match text.split_once('\n') {
        None => (text, None),
        Some((line, below)) => (line, Some(below)),
    }
}

/// How many lines the text has.
pub(crate) fn line_count(text: &str) -> u64
    ensures { result ≡ length (lines text.now) }
{
    let mut count = 1;
    for byte in text.as_bytes() {
        if *byte == b'\n' {
            count += 1;
        }
    }
    count
}
