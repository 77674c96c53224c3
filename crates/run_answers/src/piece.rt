//! The pieces of a line, which take no memory.

ghost use Rattle.std.specs.Prelude.{◌≡◌, ◌≤◌, ℕ, List, OnOk, OnErr, take, length};
ghost use Rattle.std.specs.List.{flat_map};
ghost use Rattle.qc_base.specs.Causes.{HasCause};
ghost use Rattle.qc_base.specs.Sink.{Took, TookPart};
ghost use Rattle.run_answers.specs.Line.{printable, name_text, piece_text};

use itoa::Buffer;
use qc_base::{Failed, Sink, write_all};

/// The most bytes of a name that a line shows.
const NAME_LIMIT: usize = 64;

/// A piece of a line.
#[derive(Clone, Copy, Debug)]
pub enum Piece<'a> {
    /// A text that is always the same.
    Text(&'static [u8]),
    /// A number, which is written in decimal.
    Number(u64),
    /// A name, of which the first 64 bytes are written, those that aren't printable as `?`.
    Name(&'a [u8]),
}

impl Default for Piece<'_> {
    fn default() -> Self {
        Piece::Text(b"")
    }
}

/// A byte of a name as it is written.
fn printable(byte: u8) -> u8
    ensures { result ≡ printable byte }
{
    if byte >= b' ' && byte <= b'~' {
        byte
    } else {
        b'?'
    }
}

/// Puts a name into the buffer as it is written, and answers how many bytes that are.
fn put_name(name: &[u8], buffer: &mut [u8; NAME_LIMIT]) -> usize
    ensures fits { result ≤ 64 }
    ensures text { take result buffer.new ≡ name_text name.now }
{
    let count = name.len().min(NAME_LIMIT);
    for (place, byte) in name[..count].iter().enumerate() {
        buffer[place] = printable(*byte);
    }
    count
}

impl Piece<'_> {
    /// Hands over the piece's text.
    fn write_to<K: Sink>(&self, sink: &mut K) -> Result<(), Failed>
        ensures ok { OnOk result (Took (K.taken sink.old) (K.taken sink.new) (piece_text self.now)) }
        ensures err { OnErr result (TookPart (K.taken sink.old) (K.taken sink.new) (piece_text self.now)) }
        ensures cause { HasCause (K.faults sink.old) (K.faults sink.new) result }
    {
        match *self {
            Piece::Text(text) => write_all(sink, text),
            Piece::Number(number) => {
                let mut buffer = Buffer::new();
                write_all(sink, buffer.format(number).as_bytes())
            }
            Piece::Name(name) => {
                let mut buffer = [0; NAME_LIMIT];
                let count = put_name(name, &mut buffer);
                write_all(sink, &buffer[..count])
            }
        }
    }
}

/// Hands over the texts of the pieces, or stops at the first that fails.
pub fn write_pieces<K: Sink>(sink: &mut K, pieces: &[Piece]) -> Result<(), Failed>
    ensures ok { OnOk result (Took (K.taken sink.old) (K.taken sink.new) (flat_map piece_text pieces.now)) }
    ensures err { OnErr result (TookPart (K.taken sink.old) (K.taken sink.new) (flat_map piece_text pieces.now)) }
    ensures cause { HasCause (K.faults sink.old) (K.faults sink.new) result }
{
    for piece in pieces {
        piece.write_to(sink)?;
    }
    Ok(())
}
