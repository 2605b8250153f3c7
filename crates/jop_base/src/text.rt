ghost use Rattle.std.specs.Prelude.{◌≡◌, ◌++◌, [], ◌∷◌, ◌↔◌, IfOk, OnOk, OnErr, IfErr, IsTrue, MatchOption, IfSome, OnSome, length, string_bytes};
ghost use Rattle.std.specs.Char.{encode_utf8};
ghost use Rattle.std.specs.Str.{IsUtf8};

use crate::bytes::Bytes;
use crate::copied::Copied;
use std::alloc::{AllocError, Global};
use std::fmt;
use std::marker::Model;

/// A list of bytes that is UTF-8.
#[derive(Debug, Drop)]
pub struct Text {
    letters: String,
}

impl Model for Text {
    ghost use Rattle.std.specs.Prelude.{List, ℕ, string_bytes};

    ghost Value = { List ℕ };

    ghost view = { λ t. string_bytes t.letters };
}

impl Text {
    pub fn new(alloc: Global) -> Text
        ensures { result ≡ [] }
    {
        Text {
            letters: String::new(alloc),
        }
    }

    /// No letters yet, and room for so many bytes.
    pub fn with_capacity(alloc: Global, bytes: usize) -> Result<Text, AllocError>
        ensures { IfOk result (λ text. text ≡ []) }
    {
        Ok(Text {
            letters: String::with_capacity(alloc, bytes)?,
        })
    }

    /// The text with the same letters.
    pub fn of(alloc: Global, letters: &str) -> Result<Text, AllocError>
        ensures { IfOk result (λ text. text ≡ letters.now) }
    {
        Ok(Text {
            letters: letters.to_string(alloc)?,
        })
    }

    /// The same letters, without taking memory.
    pub(crate) fn from_string(letters: String) -> Text
        ensures { result ≡ string_bytes letters }
    {
        Text { letters }
    }

    /// The text of these bytes. None exactly if they aren't UTF-8.
    pub fn read(alloc: Global, bytes: &[u8]) -> Result<Option<Text>, AllocError>
        ensures { IfOk result (λ read. MatchOption read
            (¬ IsUtf8 bytes.now) (λ text. (text ≡ bytes.now) × IsUtf8 bytes.now)) }
    {
        match std::str::from_utf8(bytes) {
            Ok(letters) => Ok(Some(Text::of(alloc, letters)?)),
            Err(_) => Ok(None),
        }
    }

    /// The same bytes, without taking memory.
    pub fn into_bytes(self) -> Bytes
        ensures bytes { result ≡ self }
        ensures utf8 { IsUtf8 result }
    {
        Bytes::from_vec(self.letters.into_bytes())
    }

    pub fn push(&mut self, letter: char) -> Result<(), AllocError>
        ensures ok { OnOk result (self.new ≡ self.old ++ encode_utf8 letter) }
        ensures err { OnErr result (self.new ≡ self.old) }
    {
        self.letters.push(letter)?;
        Ok(())
    }

    pub fn append(&mut self, letters: &str) -> Result<(), AllocError>
        ensures ok { OnOk result (self.new ≡ self.old ++ letters.now) }
        ensures err { OnErr result (self.new ≡ self.old) }
    {
        self.letters.push_str(letters)?;
        Ok(())
    }

    /// The number of bytes.
    pub fn len(&self) -> usize
        ensures { result ≡ length self.now }
    {
        self.letters.len()
    }

    pub fn is_empty(&self) -> bool
        ensures { IsTrue result ↔ (self.now ≡ []) }
    {
        self.letters.as_str().is_empty()
    }

    pub fn as_slice(&self) -> &[u8]
        ensures { result.now ≡ self.now }
    {
        self.letters.as_bytes()
    }

    pub fn as_str(&self) -> &str
        ensures { result.now ≡ self.now }
    {
        self.letters.as_str()
    }
}

impl Copied for Text {
    fn copy(&self, alloc: Global) -> Result<Text, AllocError> {
        Text::of(alloc, self.letters.as_str())
    }
}

impl PartialEq for Text {
    ghost use Rattle.std.specs.Prelude.{bytes_eq};
    ghost use Rattle.std.proofs.Common.{rules};
    ghost use Rattle.std.specs.Cmp.Rules.{comparing};

    ghost eq = { bytes_eq };

    ghost laws = { Prim.search (comparing, rules) };

    fn eq(&self, other: &Text) -> bool {
        self.as_slice() == other.as_slice()
    }
}

impl Eq for Text {
    ghost use Rattle.std.proofs.Common.{rules};
    ghost use Rattle.std.specs.Cmp.Rules.{comparing};

    ghost laws = { Prim.search (comparing, rules) };
}

impl fmt::Display for Text {
    ghost use Rattle.std.specs.Prelude.{Some};
    ghost use Rattle.std.specs.Fmt.{padded};

    ghost output = { λ text. Some text };

    ghost styled_output = { λ text spec. Some (padded spec text) };

    fn fmt<W: fmt::Write>(&self, f: &mut fmt::Formatter<W>) -> fmt::Result {
        f.pad(self.as_str())
    }
}
