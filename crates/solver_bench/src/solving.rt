//! Solving a formula that is read.

use crate::dimacs::{read_clauses, read_vars};
use cdcl::{Recent, Solver, Verdict};
use qc_base::NoMemory;
use sat_base::Lit;
use std::alloc::Global;

/// What a solver answers of a formula.
#[derive(Clone, Copy, Debug)]
pub struct Solved {
    pub verdict: Verdict,
    /// How many lines were derived.
    pub lines: u64,
    /// How many links propagation looked at.
    pub visited: u64,
}

/// What comes of a text.
#[derive(Clone, Copy, Debug)]
pub enum Outcome {
    Solved(Solved),
    /// It is not a formula in DIMACS.
    Unread,
}

/// Solves the formula that the text states in DIMACS, under the assumption of a variable that it does not name.
pub fn solve_text(alloc: Global, text: &str, budget: u64) -> Result<Outcome, NoMemory> {
    let Some(vars) = read_vars(text) else {
        return Ok(Outcome::Unread);
    };
    let mut solver = Solver::new(alloc, Recent::new(alloc));
    solver.add_vars(vars + 1)?;
    if !read_clauses(alloc, &mut solver, vars, text)? {
        return Ok(Outcome::Unread);
    }
    let verdict = solver.solve(Lit::new(vars + 1, true), budget)?;
    Ok(Outcome::Solved(Solved {
        verdict,
        lines: solver.log().derived(),
        visited: solver.visited(),
    }))
}
