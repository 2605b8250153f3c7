ghost use Rattle.jop_base.specs.LockNames.{file_name};
ghost use Rattle.jop_outside.specs.Writing.{WritesAll};
ghost use Rattle.jop_status.specs.Pieces.{piece_text, pieces_text};

use itoa::Buffer;
use jop_base::{Id, LockName};
use jop_outside::{Failed, Sink, write_parts, write_whole};

/// A part of a text. Texts that are written piece by piece take no memory.
#[derive(Clone, Copy)]
pub enum Piece<'a> {
    /// A text as it is.
    Word(&'a str),
    /// Bytes as they are.
    Bytes(&'a [u8]),
    /// In decimal digits.
    Number(u64),
    /// In its 32 hexadecimal digits.
    Id(Id),
    /// The name of a lock's file.
    Name(LockName),
}

/// Writes all pieces in a row. After `Failed` a prefix of their text was written.
pub fn write_pieces<S: Sink>(sink: &mut S, pieces: &[Piece]) -> Result<(), Failed>
    ensures { WritesAll (S.state sink.old) (pieces_text pieces.now) result (S.state sink.new) }
{
    for piece in pieces {
        write_piece(sink, piece)?;
    }
    Ok(())
}

fn write_piece<S: Sink>(sink: &mut S, piece: &Piece) -> Result<(), Failed>
    ensures { WritesAll (S.state sink.old) (piece_text piece.now) result (S.state sink.new) }
{
    match piece {
        Piece::Word(text) => write_whole(sink, text.as_bytes()),
        Piece::Bytes(bytes) => write_whole(sink, bytes),
        Piece::Id(id) => write_whole(sink, id.as_str().as_bytes()),
        Piece::Number(number) => write_whole(sink, Buffer::new().format(*number).as_bytes()),
        Piece::Name(name) => write_name(sink, name),
    }
}

/// Writes the name of a lock's file.
fn write_name<S: Sink>(sink: &mut S, name: &LockName) -> Result<(), Failed>
    ensures { WritesAll (S.state sink.old) (file_name name.now) result (S.state sink.new) }
{
    let start = [name.kind.digit(), b'_', b'0' + name.client_type, b'_'];
    write_parts(
        sink,
        &[&start, name.client.as_str().as_bytes(), b".json".as_slice()],
    )
}
