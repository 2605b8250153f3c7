ghost use Rattle.std.specs.Prelude.{◌≡◌};
ghost use Rattle.dav_listing.specs.Elements.{element_of};

/// An element that says something of a file, or any other one.
#[derive(Clone, Copy, Debug, PartialEq, Eq)]
pub enum Element {
    Multistatus,
    Response,
    Href,
    Propstat,
    Prop,
    Status,
    /// `getlastmodified`
    Modified,
    /// `resourcetype`
    Kind,
    Collection,
    Other,
}

impl Element {
    /// The element of this local name. Upper and lower case differ.
    pub fn of(name: &[u8]) -> Element
        ensures { result ≡ element_of name.now }
    {
        if name == b"multistatus".as_slice() {
            Element::Multistatus
        } else if name == b"response".as_slice() {
            Element::Response
        } else if name == b"href".as_slice() {
            Element::Href
        } else if name == b"propstat".as_slice() {
            Element::Propstat
        } else if name == b"prop".as_slice() {
            Element::Prop
        } else if name == b"status".as_slice() {
            Element::Status
        } else if name == b"getlastmodified".as_slice() {
            Element::Modified
        } else if name == b"resourcetype".as_slice() {
            Element::Kind
        } else if name == b"collection".as_slice() {
            Element::Collection
        } else {
            Element::Other
        }
    }
}
