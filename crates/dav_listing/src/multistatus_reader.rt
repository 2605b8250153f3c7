ghost use Rattle.std.specs.Prelude.{◌≡◌, OnOk};
ghost use Rattle.dav_listing.specs.Members.{tell_twice, told_together};
ghost use Rattle.dav_listing.specs.Multistatus.{back_in_text, element_begun, date_ended, done_with, entity_byte, entity_ended, fresh_reader, gone_into, gone_wrong, href_ended, is_well, is_whole, left_from, named_on, one_on, passed_deeper, prolog_ended, propstat_ended, response_ended, set_for, status_ended, text_on, unmarked, wrong_if};

use crate::element::Element;
use crate::member::{Member, Props};
use crate::mode::{Effect, Mode, effect_of, is_xml_blank};
use crate::place::{Opening, Place, is_end_of, opening_of, says_by_text};
use dav_parts::read_moment;
use jop_base::Bytes;
use std::alloc::{AllocError, Global};
use std::mem;

/// The most bytes of a local name, and of an entity's name.
const NAME_LIMIT: usize = 64;

/// The most bytes of a text that says something.
const TEXT_LIMIT: usize = 2_048;

/// The most elements within one another that are passed over.
const DEPTH_LIMIT: u64 = 100;

/// Reads the body of a 207 response byte by byte, and tells each resource where its response ends. From byte to byte
/// it keeps less than 8,192 bytes.
#[derive(Debug, Drop)]
pub struct MultistatusReader {
    pub mode: Mode,
    pub place: Place,
    /// How many elements are open that are passed over.
    pub over: u64,
    /// The name at hand, and the text at hand.
    pub mark: Bytes,
    pub text: Bytes,
    /// Of the response at hand: its href, what is said with status 200, and whether a propstat came.
    pub href: Option<Bytes>,
    pub props: Props,
    pub told: bool,
    /// Of the propstat at hand: what it says, and whether its status is 200.
    pub found: Props,
    pub good: Option<bool>,
    /// The resource whose response the last byte has ended.
    pub ended: Option<Member>,
}

/// The byte for which an entity of XML stands.
fn entity_byte(name: &[u8]) -> Option<u8>
    ensures { result ≡ entity_byte name.now }
{
    if name == b"amp".as_slice() {
        Some(b'&')
    } else if name == b"lt".as_slice() {
        Some(b'<')
    } else if name == b"gt".as_slice() {
        Some(b'>')
    } else if name == b"quot".as_slice() {
        Some(b'"')
    } else if name == b"apos".as_slice() {
        Some(b'\'')
    } else {
        None
    }
}

/// Whether a status line says that all is well, as `HTTP/1.1 200 OK`.
fn is_well(text: &[u8]) -> bool
    ensures { result ≡ is_well text.now }
{
    text.len() >= 12 && &text[..5] == b"HTTP/".as_slice() && &text[8..12] == b" 200".as_slice()
}

/// Whether a body may end there.
fn is_whole(mode: Mode, place: Place) -> bool
    ensures { result ≡ is_whole mode place }
{
    match mode {
        Mode::Text => matches!(place, Place::Ended),
        _ => false,
    }
}

impl MultistatusReader {
    /// A reader before the first byte.
    pub fn new(alloc: Global) -> MultistatusReader
        ensures { result ≡ fresh_reader }
    {
        MultistatusReader {
            mode: Mode::Text,
            place: Place::Outside,
            over: 0,
            mark: Bytes::new(alloc),
            text: Bytes::new(alloc),
            href: None,
            props: Props::none(),
            told: false,
            found: Props::none(),
            good: None,
            ended: None,
        }
    }

    /// Whether a body may end here.
    pub fn is_whole(&self) -> bool
        ensures { result ≡ is_whole self.now.mode self.now.place }
    {
        is_whole(self.mode, self.place)
    }

    /// Takes one byte more.
    #[tactic(auto, unfolding(crate::specs::Multistatus::one_on))]
    pub fn step(&mut self, alloc: Global, byte: u8) -> Result<(), AllocError>
        ensures { OnOk result (self.new ≡ one_on self.old byte) }
    {
        self.ended = None;
        match effect_of(self.mode, byte) {
            Effect::Go(mode) => {
                self.mode = mode;
                Ok(())
            }
            Effect::Begin(mode) => {
                self.mode = mode;
                self.mark = Bytes::new(alloc);
                Ok(())
            }
            Effect::Add(mode) => self.name_on(mode, byte),
            Effect::Text => self.text_on(byte),
            Effect::Open => {
                self.open(alloc);
                Ok(())
            }
            Effect::Close => {
                self.close(alloc);
                Ok(())
            }
            Effect::Empty => {
                self.open_and_close(alloc);
                Ok(())
            }
            Effect::Entity => self.end_entity(alloc),
            Effect::Prolog => {
                self.end_prolog();
                Ok(())
            }
        }
    }

    fn open(&mut self, alloc: Global)
        ensures { self.new ≡ unmarked (element_begun (back_in_text self.old)) }
    {
        self.mode = Mode::Text;
        self.begin(alloc);
        self.mark = Bytes::new(alloc);
    }

    fn close(&mut self, alloc: Global)
        ensures { self.new ≡ unmarked (done_with (back_in_text self.old)) }
    {
        self.mode = Mode::Text;
        self.end(alloc);
        self.mark = Bytes::new(alloc);
    }

    fn open_and_close(&mut self, alloc: Global)
        ensures { self.new ≡ unmarked (done_with (element_begun (back_in_text self.old))) }
    {
        self.mode = Mode::Text;
        self.begin(alloc);
        self.end(alloc);
        self.mark = Bytes::new(alloc);
    }

    fn go_wrong(&mut self)
        ensures { self.new ≡ gone_wrong self.old }
    {
        self.mode = Mode::Lost;
    }

    fn name_on(&mut self, mode: Mode, byte: u8) -> Result<(), AllocError>
        ensures { OnOk result (self.new ≡ named_on self.old mode byte) }
    {
        if self.mark.len() < NAME_LIMIT {
            self.mark.push(byte)?;
            self.mode = mode;
        } else {
            self.mode = Mode::Lost;
        }
        Ok(())
    }

    fn text_on(&mut self, byte: u8) -> Result<(), AllocError>
        ensures { OnOk result (self.new ≡ text_on self.old byte) }
    {
        self.mode = Mode::Text;
        if self.over > 0 {
            return Ok(());
        }
        if !says_by_text(self.place) {
            if !is_xml_blank(byte) {
                self.mode = Mode::Lost;
            }
            return Ok(());
        }
        if self.text.len() < TEXT_LIMIT {
            self.text.push(byte)?;
        } else {
            self.mode = Mode::Lost;
        }
        Ok(())
    }

    fn end_entity(&mut self, alloc: Global) -> Result<(), AllocError>
        ensures { OnOk result (self.new ≡ unmarked (entity_ended self.old)) }
    {
        self.read_entity()?;
        self.mark = Bytes::new(alloc);
        Ok(())
    }

    fn read_entity(&mut self) -> Result<(), AllocError>
        ensures { OnOk result (self.new ≡ entity_ended self.old) }
    {
        if self.over > 0 {
            self.mode = Mode::Text;
            return Ok(());
        }
        match entity_byte(self.mark.as_slice()) {
            Some(byte) => self.text_on(byte),
            None => {
                self.mode = Mode::Lost;
                Ok(())
            }
        }
    }

    fn end_prolog(&mut self)
        ensures { self.new ≡ prolog_ended self.old }
    {
        if matches!(self.place, Place::Outside) {
            self.mode = Mode::Text;
        } else {
            self.mode = Mode::Lost;
        }
    }

    fn pass_deeper(&mut self)
        ensures { self.new ≡ passed_deeper self.old }
    {
        if self.over < DEPTH_LIMIT {
            self.over += 1;
        } else {
            self.mode = Mode::Lost;
        }
    }

    /// The element of the name at hand begins.
    fn begin(&mut self, alloc: Global)
        ensures { self.new ≡ element_begun self.old }
    {
        if self.over > 0 {
            self.pass_deeper();
            return;
        }
        match opening_of(self.place, Element::of(self.mark.as_slice())) {
            Opening::Enter(place) => self.go_into(alloc, place),
            Opening::Collection => {
                self.found.folder = Some(true);
                self.pass_deeper();
            }
            Opening::Pass => self.pass_deeper(),
            Opening::Lose => self.go_wrong(),
        }
    }

    fn go_into(&mut self, alloc: Global, place: Place)
        ensures { self.new ≡ gone_into self.old place }
    {
        self.set_for(place);
        self.text = Bytes::new(alloc);
        self.place = place;
    }

    fn set_for(&mut self, place: Place)
        ensures { self.new ≡ set_for self.old place }
    {
        match place {
            Place::Response => {
                self.href = None;
                self.props = Props::none();
                self.told = false;
            }
            Place::Propstat => {
                self.found = Props::none();
                self.good = None;
            }
            Place::Kind => {
                if self.found.folder.is_some() {
                    self.mode = Mode::Lost;
                }
                self.found.folder = Some(false);
            }
            _ => {}
        }
    }

    /// The element of the name at hand ends.
    fn end(&mut self, alloc: Global)
        ensures { self.new ≡ done_with self.old }
    {
        if self.over > 0 {
            self.over -= 1;
            return;
        }
        if is_end_of(self.place, Element::of(self.mark.as_slice())) {
            self.leave(alloc);
        } else {
            self.mode = Mode::Lost;
        }
    }

    fn leave(&mut self, alloc: Global)
        ensures { self.new ≡ left_from self.old self.old.place }
    {
        match self.place {
            Place::Multistatus => self.place = Place::Ended,
            Place::Response => self.end_response(),
            Place::Href => self.end_href(alloc),
            Place::Propstat => self.end_propstat(),
            Place::Status => self.end_status(alloc),
            Place::Prop => self.place = Place::Propstat,
            Place::Modified => self.end_date(alloc),
            Place::Kind => self.place = Place::Prop,
            Place::Outside | Place::Ended => self.go_wrong(),
        }
    }

    fn end_href(&mut self, alloc: Global)
        ensures { self.new ≡ href_ended self.old }
    {
        if self.href.is_some() {
            self.mode = Mode::Lost;
        }
        self.href = Some(mem::replace(&mut self.text, Bytes::new(alloc)));
        self.place = Place::Response;
    }

    fn end_status(&mut self, alloc: Global)
        ensures { self.new ≡ status_ended self.old }
    {
        if self.good.is_some() {
            self.mode = Mode::Lost;
        }
        self.good = Some(is_well(self.text.as_slice()));
        self.text = Bytes::new(alloc);
        self.place = Place::Propstat;
    }

    /// A text that is no date tells none.
    fn end_date(&mut self, alloc: Global)
        ensures { self.new ≡ date_ended self.old }
    {
        if self.found.stamp.is_some() {
            self.mode = Mode::Lost;
        }
        self.found.stamp = read_moment(self.text.as_slice());
        self.text = Bytes::new(alloc);
        self.place = Place::Prop;
    }

    fn end_propstat(&mut self)
        ensures { self.new ≡ propstat_ended self.old }
    {
        let found = self.found;
        let good = self.good;
        self.told = true;
        self.found = Props::none();
        self.good = None;
        self.place = Place::Response;
        match good {
            None => self.mode = Mode::Lost,
            Some(false) => {}
            Some(true) => self.count(found),
        }
    }

    /// What a propstat says counts, and says nothing again.
    fn count(&mut self, found: Props)
        ensures { self.new ≡ record (wrong_if (tell_twice self.old.props found) self.old) {
          props = told_together self.old.props found;
        } }
    {
        if self.props.tell_twice(&found) {
            self.mode = Mode::Lost;
        }
        self.props = self.props.together(&found);
    }

    fn end_response(&mut self)
        ensures { self.new ≡ response_ended self.old }
    {
        let props = self.props;
        if !self.told {
            self.mode = Mode::Lost;
        }
        self.props = Props::none();
        self.told = false;
        self.place = Place::Multistatus;
        match mem::replace(&mut self.href, None) {
            None => self.mode = Mode::Lost,
            Some(href) => self.ended = Some(Member { href, props }),
        }
    }
}
