ghost use Rattle.std.specs.Prelude.{◌≡◌};
ghost use Rattle.dav_parts.specs.Targets.{method_text, method_in};

/// How a request is sent (RFC 9110, 9.3, and RFC 4918, 9).
#[derive(Clone, Copy, Debug, PartialEq, Eq)]
pub enum Method {
    List,
    Get,
    Put,
    Delete,
    MakeDir,
}

impl Method {
    /// The name in a request line.
    pub fn as_str(self) -> &'static str
        ensures { result.now ≡ method_text self }
    {
        match self {
            Method::List => "PROPFIND",
            Method::Get => "GET",
            Method::Put => "PUT",
            Method::Delete => "DELETE",
            Method::MakeDir => "MKCOL",
        }
    }

    /// The method of a name, which has its case. None if it is none of these.
    pub fn read(text: &[u8]) -> Option<Method>
        ensures { result ≡ method_in text.now }
    {
        if text == b"PROPFIND".as_slice() {
            Some(Method::List)
        } else if text == b"GET".as_slice() {
            Some(Method::Get)
        } else if text == b"PUT".as_slice() {
            Some(Method::Put)
        } else if text == b"DELETE".as_slice() {
            Some(Method::Delete)
        } else if text == b"MKCOL".as_slice() {
            Some(Method::MakeDir)
        } else {
            None
        }
    }
}
