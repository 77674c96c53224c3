//! The clauses of the parts and the last goal.

ghost use Rattle.std.specs.Prelude.{◌≡◌, ◌≤◌, ◌++◌, IfOk, OnOk};
ghost use Rattle.step_vars.specs.Encoding.{part_of, encoding_of, goal_literal};
ghost use Rattle.encoding_dimacs.specs.Dimacs.{setting_in, question_of, AreVarsOf};

use crate::inputs::Inputs;
use qc_base::NoMemory;
use sat_base::{Formula, Lit};
use std::alloc::Global;
use step_clauses::{goal, layer};
use step_vars::{Claim, Item, Vars};

// Adds the clauses of the part of that time.
fn push_part(
    alloc: Global,
    inputs: &Inputs,
    vars: &Vars,
    time: u32,
    out: &mut Formula,
) -> Result<(), NoMemory>
    requires vars { AreVarsOf inputs.now vars.now }
    requires time { time ≤ vars.now.steps }
    ensures { OnOk result (out.new ≡ out.old ++ part_of (setting_in inputs.now) vars.now.encoding time) }
{
    let (trap, circuit, placement) = (&inputs.trap, &inputs.circuit, &inputs.placement);
    layer(alloc, vars, trap, circuit, placement, time, out)?;
    goal(alloc, vars, trap, circuit, placement, time, out)
}

// The clauses of the parts 0 to that number of steps.
fn parts(alloc: Global, inputs: &Inputs, vars: &Vars, steps: u32) -> Result<Formula, NoMemory>
    requires vars { AreVarsOf inputs.now vars.now }
    requires steps { steps ≡ vars.now.steps }
    ensures { IfOk result (λ formula. formula ≡ encoding_of (setting_in inputs.now) vars.now.encoding steps) }
{
    let mut formula = Formula::new(alloc);
    push_part(alloc, inputs, vars, 0, &mut formula)?;
    for before in 0..steps {
        push_part(alloc, inputs, vars, before + 1, &mut formula)?;
    }
    Ok(formula)
}

// The literal of the last goal.
#[tactic(auto, using(crate::proofs::Vars::goal_there, crate::proofs::Vars::goal_is))]
fn last_goal(inputs: &Inputs, vars: &Vars, steps: u32) -> Lit
    requires vars { AreVarsOf inputs.now vars.now }
    requires steps { steps ≡ vars.now.steps }
    ensures { result ≡ goal_literal (setting_in inputs.now) vars.now.encoding steps }
{
    vars.lit(&Claim::so(Item::Goal { time: steps }))
}

/// The clauses of the parts 0 to that number of steps, and the unit clause of the last goal.
pub fn question(
    alloc: Global,
    inputs: &Inputs,
    vars: &Vars,
    steps: u32,
) -> Result<Formula, NoMemory>
    requires vars { AreVarsOf inputs.now vars.now }
    requires steps { steps ≡ vars.now.steps }
    ensures { IfOk result (λ formula. formula ≡ question_of (setting_in inputs.now) vars.now.encoding steps) }
{
    let mut formula = parts(alloc, inputs, vars, steps)?;
    formula.push(&[last_goal(inputs, vars, steps)])?;
    Ok(formula)
}
