ghost use Rattle.std.specs.Prelude.{◌≡◌, IfOk, None, Some};
ghost use Rattle.std.specs.Option.{option_copied};
ghost use Rattle.webdav_calls.specs.Sites.{basic_credentials, site_with};

use base64::engine::general_purpose::STANDARD;
use jop_base::Bytes;
use std::alloc::{AllocError, Global};
use std::marker::Model;

/// Where a WebDAV server holds a target, and as whom it is asked. It isn't printed, since it holds a password.
#[derive(Drop)]
pub struct Site {
    host: Bytes,
    path: Bytes,
    user: Option<Bytes>,
}

impl Model for Site {
    ghost use Rattle.webdav_calls.specs.Sites.{SiteView, site_with};

    ghost Value = { SiteView };

    ghost view = { λ s. site_with s.host s.path s.user };
}

impl Site {
    /// A site without a user. `host` is the host with its port, and `path` the path of the target's folder as it is
    /// escaped in a URL, with a slash at both ends.
    pub fn open(host: Bytes, path: Bytes) -> Site
        ensures { result ≡ site_with host path None }
    {
        Site {
            host,
            path,
            user: None,
        }
    }

    /// A site that is asked as a user. The user has no colon.
    pub fn as_user(
        alloc: Global,
        host: Bytes,
        path: Bytes,
        user: &[u8],
        password: &[u8],
    ) -> Result<Site, AllocError>
        ensures { IfOk result (λ site.
            site ≡ site_with host path (Some (basic_credentials user.now password.now))) }
    {
        let mut pair = Bytes::new(alloc);
        pair.append(user)?;
        pair.append(b":")?;
        pair.append(password)?;
        let encoded = STANDARD.encode(alloc, pair.as_slice())?;
        let mut credentials = Bytes::new(alloc);
        credentials.append(b"Basic ")?;
        credentials.append(encoded.as_bytes())?;
        Ok(Site {
            host,
            path,
            user: Some(credentials),
        })
    }

    /// The host with its port.
    pub fn host(&self) -> &[u8]
        ensures { result.now ≡ self.now.host }
    {
        self.host.as_slice()
    }

    /// The path of the target's folder.
    pub fn path(&self) -> &[u8]
        ensures { result.now ≡ self.now.path }
    {
        self.path.as_slice()
    }

    /// What is given for the user and the password (RFC 7617).
    pub fn user(&self) -> Option<&[u8]>
        ensures { option_copied result ≡ self.now.user }
    {
        match &self.user {
            Some(credentials) => Some(credentials.as_slice()),
            None => None,
        }
    }
}
