ghost use Rattle.std.specs.Prelude.{◌≡◌, IfOk};
ghost use Rattle.jop_start.specs.Opening.{credentials_of};
ghost use Rattle.webdav_calls.specs.Sites.{site_with};

use dav_address::SiteName;
use dav_tcp::{SteadyClock, TcpLink};
use jop_base::{Copied, Text};
use jop_host::WriterSink;
use std::alloc::{AllocError, Global};
use std::io::Stderr;
use target_dav::DavTarget;
use target_webdav::WebDavTarget;
use webdav_calls::Site;

/// The target on the server at `host:port`, over a connection of TCP, which isn't made yet and is timed by the
/// system's clock.
pub fn server_target(
    rt: &HostRuntime,
    address: Text,
) -> Result<DavTarget<TcpLink<HostRuntime, SteadyClock>>, AllocError>
    ensures { IfOk result (λ target. (target.host ≡ address) × (target.link.address ≡ address)
        × (target.faults ≡ 0)) }
{
    let host = address.copy(rt.alloc())?;
    let link = TcpLink::new(rt.clone()?, SteadyClock::new(*rt), address);
    Ok(DavTarget::new(link, host))
}

/// The site of this name. The password is the user's, and of no use where the name has none.
pub fn known_site(alloc: Global, name: SiteName, password: &Text) -> Result<Site, AllocError>
    ensures { IfOk result (λ site.
        site ≡ site_with name.host name.path (credentials_of name.user password.now)) }
{
    let SiteName { host, path, user } = name;
    let (host, path) = (host.into_bytes(), path.into_bytes());
    match user {
        None => Ok(Site::open(host, path)),
        Some(user) => {
            let site = Site::as_user(alloc, host, path, user.as_slice(), password.as_slice())?;
            Ok(site)
        }
    }
}

/// The target that a server holds at a site, over a connection as that of [`server_target`]. What is known of a call
/// that failed is told on standard error.
pub fn site_target(
    rt: &HostRuntime,
    name: SiteName,
    password: &Text,
) -> Result<WebDavTarget<TcpLink<HostRuntime, SteadyClock>, WriterSink<Stderr>>, AllocError>
    ensures { IfOk result (λ target. (target.link.address ≡ name.host)
        × (target.site ≡ site_with name.host name.path (credentials_of name.user password.now))
        × (target.faults ≡ 0)) }
{
    let address = name.host.copy(rt.alloc())?;
    let site = known_site(rt.alloc(), name, password)?;
    let link = TcpLink::new(rt.clone()?, SteadyClock::new(*rt), address);
    Ok(WebDavTarget::new(link, site, WriterSink::new(rt.stderr())))
}
