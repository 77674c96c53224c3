//! The words of a certificate, one after another.

ghost use Rattle.std.specs.Prelude.{◌≡◌, ℕ, ◌+◌, ◌≤◌, ◌<◌, ◌^◌, ◌++◌, ◌∷◌, List, [], length, true, false, codes, decimal, vec_len, vec_capacity};
ghost use Rattle.sat_base.specs.Certificate.{head_text, encoding_text, bound_text, literal_text, certificate_text};
ghost use Rattle.derivation_log.specs.Log.{IsSound};
ghost use Rattle.derivation_log.specs.Printing.{number_of, Covers, first_lines};

use crate::line_id::LineId;
use crate::log::Log;
use itoa::Buffer;
use sat_base::{Bound, Head, Lit};
use std::marker::Model;

/// More bytes than any word has.
pub const WORD: usize = 80;

// What comes next.
#[derive(Clone, Copy, Debug)]
pub enum Place<'a> {
    /// The head.
    Head,
    /// The number of a line, or the end.
    Line,
    /// These literals of a line, and then its hints.
    Literals(&'a [Lit], &'a [LineId]),
    /// These hints of a line.
    Hints(&'a [LineId]),
}

// Appends a number.
fn push_number(out: &mut Vec<u8>, number: u64)
    requires { vec_len out.old + 20 ≤ vec_capacity out.old }
    ensures items { out.new.items ≡ out.old.items ++ decimal number }
    ensures len { vec_len out.new ≤ vec_len out.old + 20 }
    ensures capacity { vec_capacity out.old ≤ vec_capacity out.new }
{
    let mut buffer = Buffer::new();
    push(out, buffer.format(number).as_bytes());
}

// Appends bytes for which there is room.
fn push(out: &mut Vec<u8>, bytes: &[u8])
    requires { vec_len out.old + length bytes.now ≤ vec_capacity out.old }
    ensures items { out.new.items ≡ out.old.items ++ bytes.now }
    ensures len { vec_len out.new ≡ vec_len out.old + length bytes.now }
    ensures capacity { vec_capacity out.old ≤ vec_capacity out.new }
{
    out.extend_from_slice(bytes).unwrap();
}

// Appends a number and what comes after it.
fn push_before(out: &mut Vec<u8>, number: u64, after: &[u8])
    requires room { vec_len out.old + 20 + length after.now ≤ vec_capacity out.old }
    requires some { 0 < length after.now }
    ensures items { out.new.items ≡ out.old.items ++ decimal number ++ after.now }
    ensures len { vec_len out.new ≤ vec_len out.old + 20 + length after.now }
    ensures more { vec_len out.old < vec_len out.new }
    ensures capacity { vec_capacity out.old ≤ vec_capacity out.new }
{
    push_number(out, number);
    push(out, after);
}

// Appends a literal and a space.
fn push_literal(out: &mut Vec<u8>, lit: Lit)
    requires { vec_len out.old + 22 ≤ vec_capacity out.old }
    ensures items { out.new.items ≡ out.old.items ++ (literal_text lit ++ codes " ") }
    ensures len { vec_len out.new ≤ vec_len out.old + 22 }
    ensures more { vec_len out.old < vec_len out.new }
    ensures capacity { vec_capacity out.old ≤ vec_capacity out.new }
{
    if !lit.positive() {
        push(out, b"-");
    }
    push_before(out, lit.var() as u64, b" ");
}

// Appends the line of an encoding.
fn push_encoding(out: &mut Vec<u8>, encoding: u32)
    requires { vec_len out.old + 30 ≤ vec_capacity out.old }
    ensures items { out.new.items ≡ out.old.items ++ encoding_text encoding }
    ensures len { vec_len out.new ≤ vec_len out.old + 30 }
    ensures capacity { vec_capacity out.old ≤ vec_capacity out.new }
{
    push(out, b"encoding ");
    push_before(out, encoding as u64, b"\n");
}

// Appends the line of a bound.
fn push_bound(out: &mut Vec<u8>, bound: Bound)
    requires { vec_len out.old + 30 ≤ vec_capacity out.old }
    ensures items { out.new.items ≡ out.old.items ++ bound_text bound }
    ensures len { vec_len out.new ≤ vec_len out.old + 30 }
    ensures capacity { vec_capacity out.old ≤ vec_capacity out.new }
{
    match bound {
        Bound::Refutes(bound) => {
            push(out, b"refutes ");
            push_before(out, bound as u64, b"\n");
        }
        Bound::Nothing => push(out, b"refutes nothing\n"),
        Bound::Open(bound) => {
            push(out, b"open ");
            push_before(out, bound as u64, b"\n");
        }
    }
}

// Appends the three lines of a head.
fn push_head(out: &mut Vec<u8>, head: Head)
    requires { vec_len out.old + 80 ≤ vec_capacity out.old }
    ensures items { out.new.items ≡ out.old.items ++ head_text head }
    ensures len { vec_len out.new ≤ vec_len out.old + 80 }
    ensures more { vec_len out.old < vec_len out.new }
    ensures capacity { vec_capacity out.old ≤ vec_capacity out.new }
{
    push(out, b"qccd certificate 1\n");
    push_encoding(out, head.encoding);
    push_bound(out, head.bound);
}

// The number of a hint in the certificate.
fn number_of(axioms: u64, hint: LineId) -> u64
    requires { number_of axioms hint < 2 ^ 64 }
    ensures { result ≡ number_of axioms hint }
{
    if hint.derived {
        axioms + hint.number
    } else {
        hint.number
    }
}

/// The words of a certificate that are left. Contracts see their text.
#[derive(Debug, Drop)]
pub struct Words<'a> {
    log: &'a Log,
    head: Head,
    axioms: u64,
    lines: u64,
    // How many lines have begun.
    begun: u64,
    place: Place<'a>,
}

impl<'a> Model for Words<'a> {
    ghost use Rattle.std.specs.Prelude.{List, ℕ};

    ghost Value = { List ℕ };

    ghost use Rattle.derivation_log.specs.Place.{text_left, AreLeft};

    ghost view = { λ w. text_left w.log.now w.head w.axioms w.lines w.begun w.place };

    ghost invariant = { λ w. AreLeft w.log.now w.axioms w.lines w.begun w.place };
}

impl<'a> Words<'a> {
    /// The words of the certificate with that head, of so many derived lines after so many axioms.
    pub fn new(log: &'a Log, head: Head, axioms: u64, lines: u64) -> Words<'a>
        requires sound { IsSound log.now }
        requires covers { Covers log.now axioms lines }
        requires numbered { axioms + lines < 2 ^ 64 }
        ensures { result ≡ certificate_text head axioms (first_lines log.now axioms lines) }
    {
        Words {
            log,
            head,
            axioms,
            lines,
            begun: 0,
            place: Place::Head,
        }
    }

    /// Appends the next word, and says whether there was one.
    pub fn print(&mut self, out: &mut Vec<u8>) -> bool
        requires { vec_len out.old + WORD ≤ vec_capacity out.old }
        ensures text { out.new.items ++ self.new ≡ out.old.items ++ self.old }
        ensures none { result ≡ false → self.new ≡ [] }
        ensures more { result ≡ true → vec_len out.old < vec_len out.new }
        ensures len { vec_len out.new ≤ vec_len out.old + WORD }
        ensures capacity { vec_capacity out.old ≤ vec_capacity out.new }
    {
        match self.place {
            Place::Head => {
                push_head(out, self.head);
                self.place = Place::Line;
            }
            Place::Line => {
                if self.begun == self.lines {
                    return false;
                }
                self.begun += 1;
                push_before(out, self.axioms + self.begun, b" ");
                let line = LineId {
                    derived: true,
                    number: self.begun,
                };
                self.place = Place::Literals(self.log.clause(line), self.log.hints(line));
            }
            Place::Literals(lits, hints) => match lits.split_first() {
                Some((lit, rest)) => {
                    push_literal(out, *lit);
                    self.place = Place::Literals(rest, hints);
                }
                None => {
                    push(out, b"0 ");
                    self.place = Place::Hints(hints);
                }
            },
            Place::Hints(hints) => match hints.split_first() {
                Some((hint, rest)) => {
                    push_before(out, number_of(self.axioms, *hint), b" ");
                    self.place = Place::Hints(rest);
                }
                None => {
                    push(out, b"0\n");
                    self.place = Place::Line;
                }
            },
        }
        true
    }
}
