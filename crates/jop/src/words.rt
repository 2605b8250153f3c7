use jop_base::{Seq, Text};
use jop_start::full_words;
use jop_words::Words;
use std::alloc::AllocError;
use std::env::{self, Args, VarError};
use std::io::ErrorKind;

/// The words that are read: the arguments, with the profile, the target and the password that the
/// environment names where they lack it. Where one of these isn't UTF-8 there are no words, which mean
/// nothing.
pub fn read_words(rt: &HostRuntime) -> Result<Words, AllocError> {
    let words = read_args(rt)?;
    let (Some(profile), Some(target), Some(password)) = (
        read_variable(rt, "JOP_PROFILE")?,
        read_variable(rt, "JOP_TARGET")?,
        read_variable(rt, "JOP_PASSWORD")?,
    ) else {
        return Ok(Words {
            list: Seq::new(rt.alloc()),
        });
    };
    Ok(Words {
        list: full_words(rt.alloc(), words.list.as_slice(), profile, target, password)?,
    })
}

/// What a variable of the environment names, which is nothing if it isn't set or is empty. None if it
/// isn't UTF-8.
fn read_variable(rt: &HostRuntime, name: &str) -> Result<Option<Option<Text>>, AllocError> {
    match env::var(rt, name) {
        Ok(value) if value.as_str().is_empty() => Ok(Some(None)),
        Ok(value) => Ok(Some(Some(Text::of(rt.alloc(), value.as_str())?))),
        Err(VarError::NotPresent) => Ok(Some(None)),
        Err(VarError::NotUnicode) => Ok(None),
        Err(VarError::OutOfMemory) => Err(AllocError),
    }
}

/// The arguments of the program. Where one isn't UTF-8 there are no words, which mean nothing.
fn read_args(rt: &HostRuntime) -> Result<Words, AllocError> {
    match env::args(rt) {
        Ok(args) => words_of(rt, args),
        Err(error) if error.kind() == ErrorKind::OutOfMemory => Err(AllocError),
        Err(_) => Ok(Words {
            list: Seq::new(rt.alloc()),
        }),
    }
}

/// All arguments but the program's own name.
fn words_of(rt: &HostRuntime, args: Args) -> Result<Words, AllocError> {
    let mut list = Seq::new(rt.alloc());
    for arg in args.skip(1) {
        list.push(Text::of(rt.alloc(), arg.as_str())?)?;
    }
    Ok(Words { list })
}
