//! Reading clauses in DIMACS.

ghost use Rattle.std.specs.Prelude.{◌≡◌, ◌≢◌, ◌≤◌, ◌+◌, ◌<◌, ◌^◌, IsTrue, ℕ, IfSome};
ghost use Rattle.sat_base.specs.Clauses.{EachVariable, HasDistinctVariables};

use cdcl::{Recent, Solver};
use qc_base::NoMemory;
use sat_base::Lit;
use std::alloc::Global;

/// The most variables that a formula may have; the solver has one more, to assume.
const MOST: u32 = (1 << 31) - 2;

// Whether the clause has no literal of the variable.
fn lacks(lits: &[Lit], var: u32) -> bool
    ensures { IsTrue result → EachVariable (λ other. other ≢ var) lits.now }
{
    for lit in lits {
        if lit.var() == var {
            return false;
        }
    }
    true
}

// Whether the clause has each variable once.
fn are_distinct(lits: &[Lit]) -> bool
    ensures { IsTrue result → HasDistinctVariables lits.now }
{
    for index in 0..lits.len() {
        let var = lits[index].var();
        if !lacks(&lits[..index], var) {
            return false;
        }
    }
    true
}

// Whether the clause names the first variables alone.
fn are_within(lits: &[Lit], vars: u32) -> bool
    ensures { IsTrue result → EachVariable (λ var. var ≤ vars) lits.now }
{
    for lit in lits {
        if lit.var() > vars {
            return false;
        }
    }
    true
}

// The number of variables that a head states.
fn vars_of(line: &str) -> Option<u32>
    ensures { IfSome result (λ vars. vars + 1 < 2 ^ 31) }
{
    let rest = line.strip_prefix("p cnf ")?;
    let word = rest.split_ascii_whitespace().next()?;
    let Ok(vars) = word.parse::<u32>() else {
        return None;
    };
    if vars > MOST {
        return None;
    }
    Some(vars)
}

/// How many variables the head of the text states.
pub fn read_vars(text: &str) -> Option<u32>
    ensures { IfSome result (λ vars. vars + 1 < 2 ^ 31) }
{
    for line in text.lines() {
        if line.starts_with("p") {
            return vars_of(line);
        }
    }
    None
}

// Adds the clause, where it has no variable twice and no further one; whether it has not.
fn add(solver: &mut Solver<Recent>, vars: u32, lits: &[Lit]) -> Result<bool, NoMemory>
    requires { vars ≤ solver.old.trail.vars }
    ensures vars { solver.new.trail.vars ≡ solver.old.trail.vars }
    ensures log { solver.new.log.derived ≡ solver.old.log.derived }
{
    if !are_distinct(lits) {
        return Ok(false);
    }
    if !are_within(lits, vars) {
        return Ok(false);
    }
    solver.add_clause(lits)?;
    Ok(true)
}

// Reads a line of literals after those of the clause so far; whether it is one.
fn read_line(
    solver: &mut Solver<Recent>,
    vars: u32,
    lits: &mut Vec<Lit>,
    line: &str,
) -> Result<bool, NoMemory>
    requires { vars ≤ solver.old.trail.vars }
    ensures vars { solver.new.trail.vars ≡ solver.old.trail.vars }
    ensures log { solver.new.log.derived ≡ solver.old.log.derived }
{
    for word in line.split_ascii_whitespace() {
        let Ok(number) = word.parse::<i32>() else {
            return Ok(false);
        };
        if number == i32::MIN {
            return Ok(false);
        }
        if number != 0 {
            lits.push(Lit::new(number.unsigned_abs(), number > 0))?;
        } else {
            if !add(solver, vars, lits)? {
                return Ok(false);
            }
            lits.clear();
        }
    }
    Ok(true)
}

/// Adds the clauses of the text, over so many variables; whether it is a formula in DIMACS.
pub fn read_clauses(
    alloc: Global,
    solver: &mut Solver<Recent>,
    vars: u32,
    text: &str,
) -> Result<bool, NoMemory>
    requires { vars ≤ solver.old.trail.vars }
    ensures vars { solver.new.trail.vars ≡ solver.old.trail.vars }
    ensures log { solver.new.log.derived ≡ solver.old.log.derived }
{
    let mut lits = Vec::new(alloc);
    for line in text.lines() {
        if !line.starts_with("c") && !line.starts_with("p") {
            if !read_line(solver, vars, &mut lits, line)? {
                return Ok(false);
            }
        }
    }
    Ok(lits.is_empty())
}
