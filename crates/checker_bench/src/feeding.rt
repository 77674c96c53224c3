//! Feeding a file to a checker.

use derivation_check::Checker;
use qc_base::NoMemory;
use sat_base::{Formula, Lit};
use std::alloc::Global;
use std::fs;
use std::io::{self, Read};
use std::rt::Files;

/// How many bytes are read and fed at once.
const PIECE: usize = 1 << 16;

/// The most bytes that the lines may have.
const LIMIT: u64 = 1 << 50;

/// What a checker answers of a file.
#[derive(Clone, Copy, Debug, PartialEq, Eq)]
pub enum Outcome {
    /// So many lines are good, and one refutes the goal.
    Accepted(u64),
    Refused,
}

/// The clauses 1, 2, 3, -4 and -5 4: the line -5 follows from the fifth and the fourth.
pub fn formula(alloc: Global) -> Result<Formula, NoMemory> {
    let mut formula = Formula::new(alloc);
    formula.push(&[Lit::new(1, true)])?;
    formula.push(&[Lit::new(2, true)])?;
    formula.push(&[Lit::new(3, true)])?;
    formula.push(&[Lit::new(4, false)])?;
    formula.push(&[Lit::new(5, false), Lit::new(4, true)])?;
    Ok(formula)
}

/// Checks the lines in a file, which follow the head of a certificate over that formula with the goal 5.
pub fn check_file<R: Files>(files: &R, alloc: Global, name: &str) -> io::Result<Outcome> {
    let Ok(formula) = formula(alloc) else {
        return Ok(Outcome::Refused);
    };
    let mut checker = Checker::new(alloc, formula, 5, LIMIT);
    let mut file = fs::open(files, name)?;
    let mut buf = vec![in alloc; 0u8; PIECE]?;
    for _ in 0..u64::MAX {
        let count = file.read(&mut buf)?;
        if count == 0 || checker.feed(&buf[..count]).is_err() {
            break;
        }
    }
    match checker.finish(5) {
        Ok(lines) => Ok(Outcome::Accepted(lines)),
        Err(_) => Ok(Outcome::Refused),
    }
}
