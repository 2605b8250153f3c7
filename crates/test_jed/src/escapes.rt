use crate::sealed::long_text;
use jed_format::{escape, unescape, units_text};
use jop_base::Text;
use std::alloc::Global;
use std::test::*;

const ESCAPED: [(&str, &str); 4] = [
    ("é a/ü€", "%E9%20a/%FC%u20AC"),
    ("Az09@*_+-./", "Az09@*_+-./"),
    ("%[`{\u{ff}\u{100}", "%25%5B%60%7B%FF%u0100"),
    ("\u{1f600}", "%uD83D%uDE00"),
];

/// Whether a text is escaped in one piece, which is that.
fn is_escaped(alloc: Global, text: &str, want: &str) -> Result<bool, Fail> {
    let text = Text::of(alloc, text)?;
    let pieces = escape(alloc, &text)?;
    Ok(pieces.len() == 1 && pieces[0].as_slice() == want.as_bytes())
}

fn count_pieces(alloc: Global, text: &Text) -> Result<usize, Fail> {
    Ok(escape(alloc, text)?.len())
}

#[test]
fn letters_are_escaped_as_in_javascript(rt: HostRuntime) -> Result<(), Fail> {
    for (text, want) in ESCAPED {
        assert!(rt; is_escaped(rt.alloc(), text, want)?, "{text}");
    }
    assert_eq!(rt; count_pieces(rt.alloc(), &Text::new(rt.alloc()))?, 0);
    Ok(())
}

/// Whether the pair behind 4,999 letters stands in two pieces.
fn is_cut(alloc: Global) -> Result<bool, Fail> {
    let text = long_text(alloc)?;
    let pieces = escape(alloc, &text)?;
    Ok(
        pieces.len() == 2
            && pieces[0].len() == 5_005
            && pieces[1].as_slice() == b"%uDE00".as_slice(),
    )
}

#[test]
fn a_pair_may_stand_in_two_pieces(rt: HostRuntime) -> Result<(), Fail> {
    assert!(rt; is_cut(rt.alloc())?);
    Ok(())
}

const CUT_SHORT: [(&str, &str); 7] = [
    ("%zz%41%u00e9", "%zzAé"),
    ("%u20aC%u20a", "€%u20a"),
    ("%%41%4", "%A%4"),
    ("%uD83D%uDE00", "\u{1f600}"),
    ("%uDE00%uD83D", "\u{fffd}\u{fffd}"),
    ("é%e9", "éé"),
    ("%U0041%u", "%U0041%u"),
];

/// Whether that is what comes back of the letters.
pub(crate) fn is_unescaped(alloc: Global, letters: &[u8], want: &[u8]) -> Result<bool, Fail> {
    let units = unescape(alloc, letters)?;
    Ok(units_text(alloc, &units)?.as_slice() == want)
}

#[test]
fn escapes_that_are_cut_short_stay(rt: HostRuntime) -> Result<(), Fail> {
    for (text, want) in CUT_SHORT {
        assert!(rt;
            is_unescaped(rt.alloc(), text.as_bytes(), want.as_bytes())?,
            "{text}"
        );
    }
    Ok(())
}
