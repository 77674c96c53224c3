//! Giving a file to the checker of LRAT.

use crate::feeding::{Outcome, formula};
use lrat_out::accept;
use qc_base::NoMemory;
use sat_base::{Formula, Lit};
use std::alloc::Global;
use std::fs;
use std::io::{self, Read};
use std::rt::Files;

// The formula of the other checker, and the clause 5.
fn with_goal(alloc: Global) -> Result<Formula, NoMemory> {
    let mut formula = formula(alloc)?;
    formula.push(&[Lit::new(5, true)])?;
    Ok(formula)
}

/// Checks the lines of LRAT in a file over that formula and the clause 5, with five variables.
pub fn prove_file<R: Files>(files: &R, alloc: Global, name: &str) -> io::Result<Outcome> {
    let Ok(formula) = with_goal(alloc) else {
        return Ok(Outcome::Refused);
    };
    let mut file = fs::open(files, name)?;
    let mut text = Vec::new(alloc);
    file.read_to_end(&mut text)?;
    match accept(alloc, &formula, 5, &text) {
        Ok(lines) => Ok(Outcome::Accepted(lines)),
        Err(_) => Ok(Outcome::Refused),
    }
}
