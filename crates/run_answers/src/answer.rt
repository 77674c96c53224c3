//! What a run answers.

ghost use Rattle.std.specs.Prelude.{◌≡◌};
ghost use Rattle.run_answers.specs.Answer.{status_of, file_word, said, fault_line};
ghost use Rattle.run_answers.specs.Line.{line_text};
ghost use Rattle.run_answers.specs.Names.{names_of};

use crate::circuit_lines::{expand_line, qasm_line};
use crate::exact_lines::{cert_line, large_word};
use crate::large::Large;
use crate::line::Line;
use crate::names::Names;
use crate::place_lines::place_line;
use crate::room_lines::room_line;
use crate::schedule_lines::play_line;
use crate::trap_lines::trap_line;
use derivation_check::CertFault;
use gate_expand::ExpandFault;
use greedy_router::RoomFault;
use placement::PlaceFault;
use qasm_read::QasmFault;
use request_words::File;
use schedule_play::PlayFault;
use trap_read::TrapText;

/// How a run ends.
#[derive(Debug, Drop, PartialEq, Eq)]
pub enum Answer {
    /// All was written.
    Ok,
    /// The words are no request.
    Usage,
    /// The file could not be read.
    ReadFault { file: File },
    /// The file is above its limit.
    Long { file: File },
    /// The circuit's file is not a valid program.
    Qasm(QasmFault),
    /// The program has no circuit.
    Expand(ExpandFault),
    /// The trap's file is not the description of a trap.
    Trap(TrapText),
    /// The rule gives no placement.
    Place(PlaceFault),
    /// The trap has no room for the circuit.
    Room(RoomFault),
    /// The first count that is above the limit of exact mode.
    TooLarge { what: Large, count: u64 },
    /// There is no schedule of at most that many steps.
    NoneWithin { max: u64 },
    /// The search derived that many lines, and isn't at its end.
    Budget { budget: u64 },
    /// The first bad line of the schedule's file, counted from 1.
    Text { line: u64 },
    /// The first fault of the schedule.
    Illegal(PlayFault),
    /// The first fault of the schedule's certificate.
    Cert(CertFault),
    /// The output failed.
    WriteFault,
    /// Memory ran out.
    NoMemory,
}

impl Answer {
    /// The status that the program ends with.
    pub fn status(&self) -> u8
        ensures { result ≡ status_of self.now }
    {
        match self {
            Answer::Ok => 0,
            Answer::Usage => 2,
            Answer::ReadFault { .. } | Answer::Long { .. } => 3,
            Answer::Qasm(_) | Answer::Expand(_) => 4,
            Answer::Trap(_) => 5,
            Answer::Place(_) | Answer::Room(_) => 6,
            Answer::TooLarge { .. } => 7,
            Answer::NoneWithin { .. } => 8,
            Answer::Budget { .. } => 9,
            Answer::WriteFault => 10,
            Answer::Text { .. } | Answer::Illegal(_) | Answer::Cert(_) => 11,
            Answer::NoMemory => 12,
        }
    }

    /// What is said of it, in pieces.
    fn said<'a>(&'a self, names: Names<'a>) -> Line<'a>
        ensures { result ≡ said (names_of names.entry) self.now }
    {
        match self {
            Answer::Ok => Line::empty(),
            Answer::Usage => Line::start(b"usage"),
            Answer::ReadFault { file } => Line::start(b"cannot read ").text(file_word(*file)),
            Answer::Long { file } => Line::start(file_word(*file)).text(b" is too long"),
            Answer::Qasm(fault) => qasm_line(fault),
            Answer::Expand(fault) => expand_line(fault),
            Answer::Trap(fault) => trap_line(fault),
            Answer::Place(fault) => place_line(fault, names),
            Answer::Room(fault) => room_line(fault, names),
            Answer::TooLarge { what, count } => Line::start(b"too large: ")
                .number(*count)
                .text(b" ")
                .text(large_word(*what)),
            Answer::NoneWithin { max } => Line::start(b"no schedule of at most ")
                .number(*max)
                .text(b" steps"),
            Answer::Budget { budget } => Line::start(b"budget of ").number(*budget).text(b" spent"),
            Answer::Text { line } => Line::start(b"schedule line ").number(*line),
            Answer::Illegal(fault) => play_line(fault),
            Answer::Cert(fault) => cert_line(fault),
            Answer::WriteFault => Line::start(b"cannot write"),
            Answer::NoMemory => Line::start(b"no memory"),
        }
    }

    /// The line that is written for it, an empty one where all went well.
    pub fn line<'a>(&'a self, names: Names<'a>) -> Line<'a>
        ensures { line_text result ≡ fault_line (names_of names.entry) self.now }
    {
        self.said(names)
    }
}

/// The word for a file.
fn file_word(file: File) -> &'static [u8]
    ensures { result.now ≡ file_word file }
{
    match file {
        File::Circuit => b"circuit",
        File::Trap => b"trap",
        File::Schedule => b"schedule",
        File::Certificate => b"certificate",
    }
}
