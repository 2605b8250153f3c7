ghost use Rattle.std.specs.Prelude.{◌≡◌, ◌≤◌, ◌*◌, ◌/◌, IfSome, IfNone, option_map};
ghost use Rattle.httpdate.specs.Date.{unix_secs, date_text, parse_secs};
ghost use Rattle.httpdate.specs.declared.date.HttpDate.{HttpDate as Date};
ghost use Rattle.jop_base.specs.declared.time.TheConstants.{MAX_TIME};

use httpdate::HttpDate;

/// The date of a moment in milliseconds since 1970, rounded down to seconds.
pub fn date_of(moment: u64) -> HttpDate
    requires { moment ≤ MAX_TIME }
    ensures { unix_secs result ≡ moment / 1_000 }
{
    match HttpDate::from_unix_secs(moment / 1_000) {
        Ok(date) => date,
        Err(_) => unreachable!(),
    }
}

/// The moment that a date shows in one of the three forms of RFC 9110, 5.6.7, in milliseconds since
/// 1970. None if the text is none.
pub fn read_moment(text: &[u8]) -> Option<u64>
    ensures { result ≡ option_map (λ secs. secs * 1_000) (parse_secs text.now) }
{
    match HttpDate::parse_ascii(text) {
        Ok(date) => Some(date.unix_secs() * 1_000),
        Err(_) => None,
    }
}

/// The date that a text shows in the one form in which dates are written.
pub(crate) fn read_date(text: &[u8]) -> Option<HttpDate>
    ensures some { IfSome result (λ date. text.now ≡ date_text date) }
    ensures none { IfNone result ((date : Date) → ¬ (text.now ≡ date_text date)) }
{
    match HttpDate::parse_ascii(text) {
        Err(_) => None,
        Ok(date) => {
            if date.to_bytes().as_slice() == text {
                Some(date)
            } else {
                None
            }
        }
    }
}
