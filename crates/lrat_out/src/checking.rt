//! The checker of LRAT.

ghost use Rattle.std.specs.Prelude.{◌<◌, ◌^◌, ◌↔◌, ◌⊎◌, IsTrue, IfOk, IfErr, OnOk};
ghost use Rattle.sat_base.specs.Truth.{Valuation, Satisfies};
ghost use Rattle.lrat_out.specs.Faults.{task_of, Answers};
ghost use Rattle.lrat_out.specs.Proof.{TakesLine, HasFaultAt};

use crate::lrat_fault::LratFault;
use crate::proof::Proof;
use crate::propagate::propagates;
use crate::reading::read_line;
use sat_base::{Formula, Lit, LitSet};
use std::alloc::Global;

// What a line is read and judged in.
#[derive(Drop)]
struct Judge {
    // The literals that are true.
    trues: LitSet,
    lits: Vec<Lit>,
    hints: Vec<u64>,
}

// Whether one of the two holds.
fn either(first: bool, second: bool) -> bool
    ensures { IsTrue result ↔ (IsTrue first ⊎ IsTrue second) }
{
    first || second
}

// Takes the line that the bytes begin with; what comes after it, and whether its clause is empty.
fn take_line<'a>(
    proof: &mut Proof,
    judge: &mut Judge,
    vars: u32,
    bytes: &'a [u8],
    place: u64,
) -> Result<(&'a [u8], bool), LratFault>
    requires { vars < 2 ^ 31 }
    ensures ok { IfOk result (λ x. TakesLine vars proof.old bytes.now x.0.now x.1 proof.new) }
    ensures err { IfErr result (λ fault. HasFaultAt vars proof.old bytes.now place fault) }
{
    let read = read_line(
        bytes,
        proof,
        vars,
        &mut judge.trues,
        &mut judge.lits,
        &mut judge.hints,
    )?;
    let Some((number, rest)) = read else {
        return Err(LratFault::Line { n: place });
    };
    if !propagates(proof, &mut judge.trues, &judge.hints)? {
        return Err(LratFault::Hint { n: place });
    }
    proof.push(number, &judge.lits)?;
    Ok((rest, judge.lits.is_empty()))
}

/// How many lines the text has, where it is a proof that no assignment satisfies the formula, by lines of LRAT over
/// so many variables; else its first fault.
pub fn accept(alloc: Global, formula: &Formula, vars: u32, text: &[u8]) -> Result<u64, LratFault>
    requires { vars < 2 ^ 31 }
    ensures answers { Answers (task_of formula.now vars) text.now result }
    ensures no_model { OnOk result ((values : Valuation) → Satisfies values formula.now → ⊥) }
{
    let mut proof = Proof::new(alloc, formula);
    let mut judge = Judge {
        trues: LitSet::new(alloc),
        lits: Vec::new(alloc),
        hints: Vec::new(alloc),
    };
    let mut rest = text;
    let mut count = 0;
    let mut closed = false;
    while !rest.is_empty() {
        let (after, empty) = take_line(&mut proof, &mut judge, vars, rest, count + 1)?;
        rest = after;
        count += 1;
        closed = either(closed, empty);
    }
    if closed {
        Ok(count)
    } else {
        Err(LratFault::NoEmpty)
    }
}
