//! Feeds the lines of a certificate to the checker, or those of LRAT to theirs, for bench/checker and bench/lrat to
//! measure.
#![tactic(auto)]

mod feeding;
mod proving;

use feeding::{Outcome, check_file};
use proving::prove_file;
use std::process::ExitCode;
use std::{env, io};

fn main(rt: HostRuntime) -> io::Result<ExitCode> {
    let mut words = Vec::new(rt.alloc());
    for word in env::args(&rt)?.skip(1) {
        words.push(word)?;
    }
    let Some(name) = words.first() else {
        println!(rt; "usage: checker_bench LINES, or checker_bench lrat LINES")?;
        return Ok(ExitCode::from(2));
    };
    let outcome = match words.get(1) {
        Some(lines) => prove_file(&rt, rt.alloc(), lines)?,
        None => check_file(&rt, rt.alloc(), name)?,
    };
    match outcome {
        Outcome::Accepted(lines) => println!(rt; "accepted {lines} lines")?,
        Outcome::Refused => println!(rt; "refused")?,
    }
    Ok(ExitCode::from(0))
}
