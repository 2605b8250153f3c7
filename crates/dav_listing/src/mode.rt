ghost use Rattle.std.specs.Prelude.{◌≡◌};
ghost use Rattle.dav_listing.specs.Lexing.{behind_end_name, between_tags, effect_of, first_in_tag, in_attributes, in_end_name, in_entity, in_quotes, in_start_name, is_name_byte, is_xml_blank};

/// In what the next byte stands.
#[derive(Clone, Copy, Debug, PartialEq, Eq)]
pub enum Mode {
    Text,
    /// Behind a `&`.
    Entity,
    /// Behind a `<`.
    Tag,
    /// In a start tag's name, before a colon and behind it.
    OpenName,
    OpenLocal,
    /// Behind a start tag's name, and in a value there.
    Inside,
    DoubleQuoted,
    SingleQuoted,
    /// Behind the slash of an empty element.
    Slash,
    /// In an end tag's name, before a colon and behind it, and behind the name.
    CloseName,
    CloseLocal,
    CloseEnd,
    /// Behind `<?`, and behind a question mark there.
    Prolog,
    PrologEnd,
    /// In a body that is no listing, whatever follows.
    Lost,
}

/// What a byte does.
#[derive(Clone, Copy, Debug, PartialEq, Eq)]
pub enum Effect {
    Go(Mode),
    /// A new name is at hand.
    Begin(Mode),
    /// The name at hand has the byte too.
    Add(Mode),
    /// The byte stands in a text.
    Text,
    /// An element begins, ends, or both.
    Open,
    Close,
    Empty,
    /// An entity is over.
    Entity,
    /// A prolog is over.
    Prolog,
}

/// Whether a byte is one of XML's four blanks.
pub(crate) fn is_xml_blank(byte: u8) -> bool
    ensures { result ≡ is_xml_blank byte }
{
    byte == b' ' || byte == b'\t' || byte == b'\n' || byte == b'\r'
}

/// Whether a byte may stand in a name. The colon parts names.
fn is_name_byte(byte: u8) -> bool
    ensures { result ≡ is_name_byte byte }
{
    (byte >= b'a' && byte <= b'z')
        || (byte >= b'A' && byte <= b'Z')
        || (byte >= b'0' && byte <= b'9')
        || byte == b'_'
        || byte == b'-'
        || byte == b'.'
        || byte >= 128
}

fn in_start_name(mode: Mode, byte: u8) -> Effect
    ensures { result ≡ in_start_name mode byte }
{
    match byte {
        b'>' => Effect::Open,
        b'/' => Effect::Go(Mode::Slash),
        _ if is_xml_blank(byte) => Effect::Go(Mode::Inside),
        _ if is_name_byte(byte) => Effect::Add(mode),
        _ => Effect::Go(Mode::Lost),
    }
}

fn in_end_name(mode: Mode, byte: u8) -> Effect
    ensures { result ≡ in_end_name mode byte }
{
    match byte {
        b'>' => Effect::Close,
        _ if is_xml_blank(byte) => Effect::Go(Mode::CloseEnd),
        _ if is_name_byte(byte) => Effect::Add(mode),
        _ => Effect::Go(Mode::Lost),
    }
}

fn in_attributes(byte: u8) -> Effect
    ensures { result ≡ in_attributes byte }
{
    match byte {
        b'>' => Effect::Open,
        b'/' => Effect::Go(Mode::Slash),
        b'"' => Effect::Go(Mode::DoubleQuoted),
        b'\'' => Effect::Go(Mode::SingleQuoted),
        b'<' => Effect::Go(Mode::Lost),
        _ => Effect::Go(Mode::Inside),
    }
}

fn in_quotes(quote: u8, mode: Mode, byte: u8) -> Effect
    ensures { result ≡ in_quotes quote mode byte }
{
    match byte {
        _ if byte == quote => Effect::Go(Mode::Inside),
        b'<' => Effect::Go(Mode::Lost),
        _ => Effect::Go(mode),
    }
}

fn between_tags(byte: u8) -> Effect
    ensures { result ≡ between_tags byte }
{
    match byte {
        b'<' => Effect::Begin(Mode::Tag),
        b'&' => Effect::Begin(Mode::Entity),
        _ => Effect::Text,
    }
}

fn in_entity(byte: u8) -> Effect
    ensures { result ≡ in_entity byte }
{
    match byte {
        b';' => Effect::Entity,
        b'<' => Effect::Go(Mode::Lost),
        _ => Effect::Add(Mode::Entity),
    }
}

fn first_in_tag(byte: u8) -> Effect
    ensures { result ≡ first_in_tag byte }
{
    match byte {
        b'/' => Effect::Go(Mode::CloseName),
        b'?' => Effect::Go(Mode::Prolog),
        _ if is_name_byte(byte) => Effect::Add(Mode::OpenName),
        _ => Effect::Go(Mode::Lost),
    }
}

fn behind_end_name(byte: u8) -> Effect
    ensures { result ≡ behind_end_name byte }
{
    match byte {
        b'>' => Effect::Close,
        _ if is_xml_blank(byte) => Effect::Go(Mode::CloseEnd),
        _ => Effect::Go(Mode::Lost),
    }
}

/// What a byte does where it stands.
pub(crate) fn effect_of(mode: Mode, byte: u8) -> Effect
    ensures { result ≡ effect_of mode byte }
{
    match (mode, byte) {
        (Mode::Text, _) => between_tags(byte),
        (Mode::Entity, _) => in_entity(byte),
        (Mode::Tag, _) => first_in_tag(byte),
        (Mode::OpenName, b':') => Effect::Begin(Mode::OpenLocal),
        (Mode::OpenName, _) => in_start_name(Mode::OpenName, byte),
        (Mode::OpenLocal, _) => in_start_name(Mode::OpenLocal, byte),
        (Mode::Inside, _) => in_attributes(byte),
        (Mode::DoubleQuoted, _) => in_quotes(b'"', Mode::DoubleQuoted, byte),
        (Mode::SingleQuoted, _) => in_quotes(b'\'', Mode::SingleQuoted, byte),
        (Mode::Slash, b'>') => Effect::Empty,
        (Mode::CloseName, b':') => Effect::Begin(Mode::CloseLocal),
        (Mode::CloseName, _) => in_end_name(Mode::CloseName, byte),
        (Mode::CloseLocal, _) => in_end_name(Mode::CloseLocal, byte),
        (Mode::CloseEnd, _) => behind_end_name(byte),
        (Mode::Prolog, b'?') | (Mode::PrologEnd, b'?') => Effect::Go(Mode::PrologEnd),
        (Mode::PrologEnd, b'>') => Effect::Prolog,
        (Mode::Prolog, _) | (Mode::PrologEnd, _) => Effect::Go(Mode::Prolog),
        (Mode::Slash, _) | (Mode::Lost, _) => Effect::Go(Mode::Lost),
    }
}
