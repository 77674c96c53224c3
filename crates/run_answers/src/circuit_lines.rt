//! What is said of the faults of a circuit's file.

ghost use Rattle.std.specs.Prelude.{◌≡◌};
ghost use Rattle.run_answers.specs.CircuitLines.{at_byte, qasm_said, count_word, expand_said};

use crate::line::Line;
use gate_expand::{Counted, ExpandFault};
use qasm_read::QasmFault;

/// A fault at a byte of the circuit's file.
fn at_byte<'a>(at: u64, what: &'static [u8]) -> Line<'a>
    ensures { result ≡ at_byte at what.now }
{
    Line::start(b"circuit byte ")
        .number(at)
        .text(b": ")
        .text(what)
}

/// A file that is not a valid program.
pub fn qasm_line<'a>(fault: &QasmFault) -> Line<'a>
    ensures { result ≡ qasm_said fault.now }
{
    match *fault {
        QasmFault::Header => Line::start(b"circuit: no header"),
        QasmFault::Lex { at } => at_byte(at, b"no token"),
        QasmFault::LongWord { at } => at_byte(at, b"long word"),
        QasmFault::BigNumber { at } => at_byte(at, b"large number"),
        QasmFault::Deep { at } => at_byte(at, b"too deep"),
        QasmFault::Statement { at } => at_byte(at, b"no statement"),
        QasmFault::Large { at } => at_byte(at, b"large angle"),
        QasmFault::NoMemory => Line::start(b"no memory"),
    }
}

/// What there are too many of.
fn count_word(what: Counted) -> &'static [u8]
    ensures { result.now ≡ count_word what }
{
    match what {
        Counted::Qubits => b"too many qubits",
        Counted::Bits => b"too many bits",
        Counted::Formals => b"too many formals",
        Counted::Applications => b"too many applications",
        Counted::Ops => b"too many operations",
        Counted::Nodes => b"too many nodes",
    }
}

/// A program that has no circuit.
pub fn expand_line<'a>(fault: &ExpandFault) -> Line<'a>
    ensures { result ≡ expand_said fault.now }
{
    match *fault {
        ExpandFault::Include { at } => at_byte(at, b"include"),
        ExpandFault::Undeclared { at } => at_byte(at, b"undeclared"),
        ExpandFault::Redeclared { at } => at_byte(at, b"redeclared"),
        ExpandFault::Kind { at } => at_byte(at, b"wrong kind"),
        ExpandFault::Params { at } => at_byte(at, b"parameters"),
        ExpandFault::Args { at } => at_byte(at, b"arguments"),
        ExpandFault::Index { at } => at_byte(at, b"index"),
        ExpandFault::Zero { at } => at_byte(at, b"size zero"),
        ExpandFault::Sizes { at } => at_byte(at, b"sizes"),
        ExpandFault::Repeated { at } => at_byte(at, b"repeated qubit"),
        ExpandFault::SelfMeasure { at } => at_byte(at, b"condition on its own register"),
        ExpandFault::WideOp { at } => at_byte(at, b"wide operation"),
        ExpandFault::AngleLarge { at } => at_byte(at, b"large angle"),
        ExpandFault::TooMany { what, at } => at_byte(at, count_word(what)),
        ExpandFault::NoMemory => Line::start(b"no memory"),
    }
}
