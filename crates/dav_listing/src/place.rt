ghost use Rattle.std.specs.Prelude.{◌≡◌};
ghost use Rattle.dav_listing.specs.Places.{is_end_of, opening_of, says_by_text};

use crate::element::Element;

/// The innermost element that is open, of those that say something of a file.
#[derive(Clone, Copy, Debug, PartialEq, Eq)]
pub enum Place {
    /// Before the first element.
    Outside,
    Multistatus,
    Response,
    Href,
    Propstat,
    Status,
    Prop,
    /// `getlastmodified`
    Modified,
    /// `resourcetype`
    Kind,
    /// Behind the last element.
    Ended,
}

/// What it does that an element begins.
#[derive(Clone, Copy, Debug, PartialEq, Eq)]
pub enum Opening {
    Enter(Place),
    /// The resource is a collection; the element is passed over.
    Collection,
    /// The element is passed over, with all that stands in it.
    Pass,
    /// It may not stand here.
    Lose,
}

/// What it does that an element begins at a place.
pub(crate) fn opening_of(place: Place, element: Element) -> Opening
    ensures { result ≡ opening_of place element }
{
    match place {
        Place::Outside => match element {
            Element::Multistatus => Opening::Enter(Place::Multistatus),
            _ => Opening::Lose,
        },
        Place::Multistatus => match element {
            Element::Response => Opening::Enter(Place::Response),
            _ => Opening::Lose,
        },
        Place::Response => match element {
            Element::Href => Opening::Enter(Place::Href),
            Element::Propstat => Opening::Enter(Place::Propstat),
            _ => Opening::Lose,
        },
        Place::Propstat => match element {
            Element::Prop => Opening::Enter(Place::Prop),
            Element::Status => Opening::Enter(Place::Status),
            _ => Opening::Lose,
        },
        Place::Prop => match element {
            Element::Modified => Opening::Enter(Place::Modified),
            Element::Kind => Opening::Enter(Place::Kind),
            _ => Opening::Pass,
        },
        Place::Kind => match element {
            Element::Collection => Opening::Collection,
            _ => Opening::Pass,
        },
        Place::Href | Place::Status | Place::Modified | Place::Ended => Opening::Lose,
    }
}

/// Whether the end of an element ends what it stands in.
pub(crate) fn is_end_of(place: Place, element: Element) -> bool
    ensures { result ≡ is_end_of place element }
{
    match place {
        Place::Multistatus => matches!(element, Element::Multistatus),
        Place::Response => matches!(element, Element::Response),
        Place::Href => matches!(element, Element::Href),
        Place::Propstat => matches!(element, Element::Propstat),
        Place::Status => matches!(element, Element::Status),
        Place::Prop => matches!(element, Element::Prop),
        Place::Modified => matches!(element, Element::Modified),
        Place::Kind => matches!(element, Element::Kind),
        Place::Outside | Place::Ended => false,
    }
}

/// Whether text says something at a place.
pub(crate) fn says_by_text(place: Place) -> bool
    ensures { result ≡ says_by_text place }
{
    matches!(place, Place::Href | Place::Status | Place::Modified)
}
