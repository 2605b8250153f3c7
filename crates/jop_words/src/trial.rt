ghost use Rattle.std.specs.Prelude.{◌≡◌, IfOk};
ghost use Rattle.jop_words.specs.Trials.{trial_of, trial_words};

use crate::words::Words;
use dav_address::{SiteName, read_site};
use jop_base::Text;
use std::alloc::{AllocError, Global};

/// The folder on a server that is to be tried, exactly if the words are `try` and `webdav:URL`.
pub fn trial_words(alloc: Global, words: &Words) -> Result<Option<SiteName>, AllocError>
    ensures { IfOk result (λ site. site ≡ trial_words words.now.list) }
{
    match words.list.as_slice() {
        [verb, target] if verb.as_str() == "try" => trial_of(alloc, target),
        _ => Ok(None),
    }
}

fn trial_of(alloc: Global, target: &Text) -> Result<Option<SiteName>, AllocError>
    ensures { IfOk result (λ site. site ≡ trial_of target.now) }
{
    match target.as_str().strip_prefix("webdav:") {
        Some(url) => read_site(alloc, url),
        None => Ok(None),
    }
}
