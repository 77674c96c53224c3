//! Lines of a few pieces, which take no memory.

ghost use Rattle.std.specs.Prelude.{◌≡◌, ◌+◌, ◌<◌, ◌≤◌, ℕ, List, [], ◌∷◌, ◌++◌, length, take, map, codes, decimal, OnOk, OnErr};
ghost use Rattle.std.specs.List.{flat_map};
ghost use Rattle.qc_base.specs.Causes.{HasCause};
ghost use Rattle.qc_base.specs.Sink.{Took, TookPart};
ghost use Rattle.run_answers.specs.Line.{name_text, line_text};

use crate::piece::{Piece, write_pieces};
use arrayvec::ArrayVec;
use qc_base::{Failed, Sink, write_all};
use std::marker::Model;

/// The most pieces of a line.
const PIECES: usize = 8;

/// What a line says, in at most eight pieces. Clauses see the list of the pieces' texts.
#[derive(Debug, Drop)]
pub struct Line<'a> {
    pieces: ArrayVec<Piece<'a>, PIECES>,
}

impl<'a> Model for Line<'a> {
    ghost use Rattle.std.specs.Prelude.{List, ℕ, map};
    ghost use Rattle.run_answers.specs.Line.{piece_text};

    ghost Value = { List (List ℕ) };

    ghost view = { λ l. map piece_text l.pieces.items };
}

impl<'a> Line<'a> {
    ghost use Rattle.std.specs.Prelude.{◌≡◌, ◌<◌, [], ◌∷◌, ◌++◌, length, decimal};
    ghost use Rattle.run_answers.specs.Line.{name_text, piece_text};

    /// No line at all.
    pub fn empty() -> Line<'a>
        ensures { result ≡ [] }
    {
        let pieces = ArrayVec::new();
        Line { pieces }
    }

    /// A line that begins with this text.
    pub fn start(text: &'static [u8]) -> Line<'a>
        ensures { result ≡ text.now ∷ [] }
    {
        Line::empty().text(text)
    }

    /// The line and one more piece.
    fn with(mut self, piece: Piece<'a>) -> Line<'a>
        requires { length self < 8 }
        ensures { result ≡ self.entry ++ piece_text piece.entry ∷ [] }
    {
        self.pieces.push(piece);
        self
    }

    /// The line and then this text.
    pub fn text(self, text: &'static [u8]) -> Line<'a>
        requires { length self < 8 }
        ensures { result ≡ self.entry ++ text.now ∷ [] }
    {
        self.with(Piece::Text(text))
    }

    /// The line and then this number.
    pub fn number(self, number: u64) -> Line<'a>
        requires { length self < 8 }
        ensures { result ≡ self.entry ++ decimal number ∷ [] }
    {
        self.with(Piece::Number(number))
    }

    /// The line and then this name.
    pub fn name(self, name: &'a [u8]) -> Line<'a>
        requires { length self < 8 }
        ensures { result ≡ self.entry ++ name_text name.now ∷ [] }
    {
        self.with(Piece::Name(name))
    }
}

impl Line<'_> {
    /// Hands over the program's name and the pieces.
    fn write_front<K: Sink>(&self, sink: &mut K) -> Result<(), Failed>
        ensures ok { OnOk result (Took (K.taken sink.old) (K.taken sink.new)
            (codes "qccd: " ++ flat_map (λ text. text) self.now)) }
        ensures err { OnErr result (TookPart (K.taken sink.old) (K.taken sink.new)
            (codes "qccd: " ++ flat_map (λ text. text) self.now)) }
        ensures cause { HasCause (K.faults sink.old) (K.faults sink.new) result }
    {
        write_all(sink, b"qccd: ")?;
        write_pieces(sink, self.pieces.as_slice())
    }

    /// Hands over the line: after the program's name and with a line end, where there is one.
    pub fn write_to<K: Sink>(&self, sink: &mut K) -> Result<(), Failed>
        ensures ok { OnOk result (Took (K.taken sink.old) (K.taken sink.new) (line_text self.now)) }
        ensures err { OnErr result (TookPart (K.taken sink.old) (K.taken sink.new) (line_text self.now)) }
        ensures cause { HasCause (K.faults sink.old) (K.faults sink.new) result }
    {
        if self.pieces.is_empty() {
            return Ok(());
        }
        self.write_front(sink)?;
        write_all(sink, b"\n")
    }
}
