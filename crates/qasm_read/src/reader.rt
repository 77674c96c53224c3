//! Programs, read.

ghost use Rattle.std.specs.Prelude.{◌≡◌, None};
ghost use Rattle.qasm_read.specs.Reading.{Gives, opening_at, version_at, header_at};
ghost use Rattle.qasm_read.specs.Program.{Answers, AnswersAfter, UnlessMemory};

use crate::fault::QasmFault;
use crate::statement::{Placed, Program};
use crate::statements::statement;
use crate::stop::Stop;
use crate::tokens::Tokens;
use qasm_tokens::{Keyword, Sign, Token, TokenSource};
use std::alloc::Global;

/// The program that the tokens spell, or the first fault of grammar.
pub fn read_program<T: TokenSource + Drop>(alloc: Global, source: T) -> Result<Program, QasmFault>
    ensures { UnlessMemory (Answers (T.left source)) result }
{
    let mut tokens = Tokens::new(source)?;
    match header(&mut tokens) {
        Ok(()) => statements(alloc, &mut tokens),
        Err(Stop::NoMemory) => Err(QasmFault::NoMemory),
        Err(Stop::OtherForm) => Err(QasmFault::Header),
    }
}

fn header<T: TokenSource + Drop>(tokens: &mut Tokens<T>) -> Result<(), Stop>
    ensures { Gives result tokens.new (header_at tokens.old) }
{
    opening(tokens)?;
    version(tokens)?;
    tokens.skip(Sign::Semicolon)
}

fn opening<T: TokenSource + Drop>(tokens: &mut Tokens<T>) -> Result<(), Stop>
    ensures { Gives result tokens.new (opening_at tokens.old) }
{
    match tokens.next()? {
        Token::Keyword(Keyword::OpenQasm) => Ok(()),
        _ => Err(Stop::OtherForm),
    }
}

fn version<T: TokenSource + Drop>(tokens: &mut Tokens<T>) -> Result<(), Stop>
    ensures { Gives result tokens.new (version_at tokens.old) }
{
    match tokens.next()? {
        Token::Real(version) => {
            if version.bytes() == b"2.0".as_slice() {
                Ok(())
            } else {
                Err(Stop::OtherForm)
            }
        }
        _ => Err(Stop::OtherForm),
    }
}

fn statements<T: TokenSource + Drop>(
    alloc: Global,
    tokens: &mut Tokens<T>,
) -> Result<Program, QasmFault>
    requires { tokens.old.large ≡ None }
    ensures { UnlessMemory (AnswersAfter tokens.old.placed) result }
{
    let mut statements = Vec::new(alloc);
    while let Some(at) = tokens.place() {
        let large = tokens.large();
        match statement(alloc, tokens) {
            Ok(statement) => statements.push(Placed { at, statement })?,
            Err(Stop::NoMemory) => return Err(QasmFault::NoMemory),
            Err(Stop::OtherForm) => match large {
                Some(at) => return Err(QasmFault::Large { at }),
                None => return Err(QasmFault::Statement { at }),
            },
        }
    }
    match tokens.large() {
        Some(at) => Err(QasmFault::Large { at }),
        None => Ok(Program::from_vec(statements)),
    }
}
