//! Writes the clauses that say that a schedule of so many steps exists, as a DIMACS text.
#![tactic(auto)]

mod formula;
mod inputs;
mod request;
mod text;

ghost use Rattle.std.specs.Prelude.{◌≤◌};

use inputs::Inputs;
use request::Request;
use std::alloc::Global;
use std::io::{self, Write};
use std::process::ExitCode;
use std::rt::Files;
use std::{env, fs};
use text::encoded;

// What a run on words of another form ends with, and one on files that are refused.
const USAGE: u8 = 2;

const REFUSED: u8 = 1;

// Writes the text to standard output.
fn write<R: Files + Print + AllocGlobal>(
    rt: &R,
    alloc: Global,
    request: &Request,
) -> io::Result<ExitCode>
    requires { request.now.steps ≤ 48 }
{
    let circuit = fs::read(rt, request.circuit)?;
    let trap = fs::read(rt, request.trap)?;
    let Some(inputs) = Inputs::of(alloc, &circuit, &trap) else {
        return Ok(ExitCode::from(REFUSED));
    };
    let Ok(text) = encoded(alloc, &inputs, request.steps, request.encoding) else {
        return Ok(ExitCode::from(REFUSED));
    };
    io::writer(rt).write_all(&text)?;
    Ok(ExitCode::from(0))
}

fn main(rt: HostRuntime) -> io::Result<ExitCode> {
    let mut words = Vec::new(rt.alloc());
    for word in env::args(&rt)?.skip(1) {
        words.push(word)?;
    }
    let Some(request) = Request::of(&words) else {
        println!(rt; "usage: encoding_dimacs CIRCUIT TRAP STEPS ENCODING")?;
        return Ok(ExitCode::from(USAGE));
    };
    write(&rt, rt.alloc(), &request)
}
