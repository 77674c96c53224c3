//! A circuit file's bytes, read.

ghost use Rattle.std.specs.Prelude.{IfOk};
ghost use Rattle.qasm_read.specs.Program.{UnlessMemory};
ghost use Rattle.qasm_read.specs.Read.{IsReading};
ghost use Rattle.qasm_read.specs.WellFormed.{AreWellFormed};

use crate::fault::QasmFault;
use crate::reader::read_program;
use crate::statement::Program;
use qasm_tokens::TextTokens;
use std::alloc::Global;

/// The program that the bytes are, or the first fault with its place.
pub fn read(alloc: Global, bytes: &[u8]) -> Result<Program, QasmFault>
    ensures exact { UnlessMemory (IsReading bytes.now) result }
    ensures well_formed { IfOk result AreWellFormed }
{
    match TextTokens::new(alloc, bytes) {
        Ok(tokens) => read_program(alloc, tokens),
        Err(fault) => Err(QasmFault::from(fault)),
    }
}
