//! Clauses as a DIMACS text.

ghost use Rattle.std.specs.Prelude.{◌≡◌, ◌≤◌, ◌++◌, codes, IfOk, OnOk};
ghost use Rattle.sat_base.specs.Certificate.{literal_text};
ghost use Rattle.encoding_dimacs.specs.Dimacs.{head_text, clause_text, dimacs_text, question_text, setting_in, AreReady};

use crate::formula::question;
use crate::inputs::Inputs;
use qc_base::{NoMemory, push_number};
use sat_base::{Formula, Lit};
use std::alloc::Global;
use step_vars::{Encoding, Vars};

// Adds a literal and a space.
fn push_lit(text: &mut Vec<u8>, lit: Lit) -> Result<(), NoMemory>
    ensures { OnOk result (text.new.items ≡ text.old.items ++ literal_text lit ++ codes " ") }
{
    if !lit.positive() {
        text.push(b'-')?;
    }
    push_number(text, u64::from(lit.var()))?;
    text.push(b' ')?;
    Ok(())
}

// Adds the line of a clause.
fn push_clause(text: &mut Vec<u8>, clause: &[Lit]) -> Result<(), NoMemory>
    ensures { OnOk result (text.new.items ≡ text.old.items ++ clause_text clause.now) }
{
    for lit in clause {
        push_lit(text, *lit)?;
    }
    text.extend_from_slice(b"0\n")?;
    Ok(())
}

// Adds the line with the numbers of variables and of clauses.
fn push_head(text: &mut Vec<u8>, vars: u32, clauses: u64) -> Result<(), NoMemory>
    ensures { OnOk result (text.new.items ≡ text.old.items ++ head_text vars clauses) }
{
    text.extend_from_slice(b"p cnf ")?;
    push_number(text, u64::from(vars))?;
    text.push(b' ')?;
    push_number(text, clauses)?;
    text.push(b'\n')?;
    Ok(())
}

// The text of clauses over so many variables.
fn text_of(alloc: Global, formula: &Formula, vars: u32) -> Result<Vec<u8>, NoMemory>
    ensures { IfOk result (λ text. text.items ≡ dimacs_text vars formula.now) }
{
    let mut text = Vec::new(alloc);
    push_head(&mut text, vars, formula.len())?;
    for k in 0..formula.len() {
        push_clause(&mut text, formula.clause(k + 1))?;
    }
    Ok(text)
}

/// The text of the parts 0 to that number of steps, with the unit clause of the last goal.
pub fn encoded(
    alloc: Global,
    inputs: &Inputs,
    steps: u32,
    encoding: Encoding,
) -> Result<Vec<u8>, NoMemory>
    requires inputs { AreReady inputs.now }
    requires steps { steps ≤ 48 }
    ensures { IfOk result (λ text. text.items ≡ question_text (setting_in inputs.now) encoding steps) }
{
    let (trap, circuit, placement) = (&inputs.trap, &inputs.circuit, &inputs.placement);
    let vars = Vars::new(alloc, trap, circuit, placement, steps, encoding)?;
    let formula = question(alloc, inputs, &vars, steps)?;
    text_of(alloc, &formula, vars.count(steps))
}
