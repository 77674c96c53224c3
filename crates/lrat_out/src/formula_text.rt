//! Formulas in DIMACS.

ghost use Rattle.std.specs.Prelude.{◌≡◌, ◌++◌, OnOk, IfOk, codes};
ghost use Rattle.sat_base.specs.Certificate.{literal_text, literals_text};
ghost use Rattle.lrat_out.specs.Dimacs.{clause_text, problem_text, dimacs_text};

use qc_base::{NoMemory, push_number};
use sat_base::{Formula, Lit};
use std::alloc::Global;

// Appends a literal and a space.
pub(crate) fn push_literal(out: &mut Vec<u8>, lit: Lit) -> Result<(), NoMemory>
    ensures { OnOk result (out.new.items ≡ out.old.items ++ (literal_text lit ++ codes " ")) }
{
    if !lit.positive() {
        out.extend_from_slice(b"-")?;
    }
    push_number(out, lit.var() as u64)?;
    out.extend_from_slice(b" ")?;
    Ok(())
}

/// Appends literals, a space after each.
pub fn push_literals(out: &mut Vec<u8>, lits: &[Lit]) -> Result<(), NoMemory>
    ensures { OnOk result (out.new.items ≡ out.old.items ++ literals_text lits.now) }
{
    for &lit in lits {
        push_literal(out, lit)?;
    }
    Ok(())
}

// Appends the line of a clause.
fn push_clause(out: &mut Vec<u8>, clause: &[Lit]) -> Result<(), NoMemory>
    ensures { OnOk result (out.new.items ≡ out.old.items ++ clause_text clause.now) }
{
    push_literals(out, clause)?;
    out.extend_from_slice(b"0\n")?;
    Ok(())
}

// Appends the first line.
fn push_problem(out: &mut Vec<u8>, vars: u32, clauses: u64) -> Result<(), NoMemory>
    ensures { OnOk result (out.new.items ≡ out.old.items ++ problem_text vars clauses) }
{
    out.extend_from_slice(b"p cnf ")?;
    push_number(out, vars as u64)?;
    out.extend_from_slice(b" ")?;
    push_number(out, clauses)?;
    out.extend_from_slice(b"\n")?;
    Ok(())
}

/// The text of a formula over so many variables in DIMACS.
pub fn dimacs(alloc: Global, formula: &Formula, vars: u32) -> Result<Vec<u8>, NoMemory>
    ensures { IfOk result (λ text. text.items ≡ dimacs_text formula.now vars) }
{
    let mut out = Vec::new(alloc);
    push_problem(&mut out, vars, formula.len())?;
    for k in 0..formula.len() {
        push_clause(&mut out, formula.clause(k + 1))?;
    }
    Ok(out)
}
