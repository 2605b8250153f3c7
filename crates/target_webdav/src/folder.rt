ghost use Rattle.std.specs.Prelude.{◌≡◌, ◌++◌, IfOk};
ghost use Rattle.jop_base.specs.Paths.{dir_prefix};
ghost use Rattle.percent_encoding.specs.Percent.{percent_decode as decoded_text};
ghost use Rattle.target_webdav.specs.Folders.{listed_folder};

use jop_base::{Bytes, Dir};
use jop_target::Call;
use percent_encoding::percent_decode;
use std::alloc::{AllocError, Global};
use webdav_calls::Site;

fn folder_path(alloc: Global, site: &Site, dir: Dir) -> Result<Bytes, AllocError>
    ensures { IfOk result (λ path. path ≡ decoded_text (site.now.path ++ dir_prefix dir)) }
{
    let mut escaped = Bytes::new(alloc);
    escaped.append(site.path())?;
    escaped.append(dir.prefix().as_bytes())?;
    let mut path = Vec::new(alloc);
    percent_decode(escaped.as_slice()).append_to(&mut path)?;
    Ok(Bytes::from_vec(path))
}

/// The path on the server of the folder that a call lists, with its escapes read and a slash at its end.
pub(crate) fn listed_folder(alloc: Global, site: &Site, call: &Call) -> Result<Bytes, AllocError>
    ensures { IfOk result (λ path. path ≡ listed_folder site.now call.now) }
{
    match call {
        Call::List(dir) => folder_path(alloc, site, *dir),
        _ => Ok(Bytes::new(alloc)),
    }
}
