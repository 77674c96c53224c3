//! The lines of a schedule's text after the placement.

ghost use Rattle.std.specs.Prelude.{◌≡◌, ℕ, ◌+◌, ◌<◌, ◌++◌, List, IfOk, IfSome, IsSomeAnd, codes, decimal, length};
ghost use Rattle.circuit_core.specs.Circuit.{IsCircuit};
ghost use Rattle.trap_parts.specs.Build.{IsTrap};
ghost use Rattle.step_rules.specs.declared.action.Action.{Action as AnAction};
ghost use Rattle.schedule_text.specs.declared.body_line.BodyLine.{BodyLine as ABodyLine};
ghost use Rattle.schedule_text.specs.Progress.{line_text, MayFollow};

use crate::action_line::read_action;
use qc_base::{NoMemory, number_until, strip_prefix};
use std::alloc::Global;
use step_rules::{Action, Setting};

/// A line after the one that counts the steps.
#[derive(Clone, Copy, Debug)]
pub enum BodyLine {
    /// A step begins.
    Step,
    /// An action of the step.
    Act(Action),
    /// The last line.
    End,
}

// What comes after the line of the next step, where fewer than so many have begun.
fn read_step(bytes: &[u8], steps: u64, count: u64) -> Option<&[u8]>
    ensures found { IfSome result
        (λ rest. bytes.now ≡ codes "step " ++ decimal (steps + 1) ++ codes "\n" ++ rest.now) }
    ensures fewer { IfSome result (λ rest. steps < count) }
    ensures only { (rest : List ℕ) → steps < count
        → bytes.now ≡ codes "step " ++ decimal (steps + 1) ++ codes "\n" ++ rest
        → IsSomeAnd result (λ x. x.now ≡ rest) }
{
    let digits = strip_prefix(bytes, b"step ")?;
    let (number, rest) = number_until(digits, b'\n')?;
    if steps < count && number == steps + 1 {
        Some(rest)
    } else {
        None
    }
}

// What comes after the last line, where all steps have begun.
fn read_end(bytes: &[u8], steps: u64, count: u64) -> Option<&[u8]>
    ensures found { IfSome result (λ rest. bytes.now ≡ codes "end\n" ++ rest.now) }
    ensures all { IfSome result (λ rest. steps ≡ count) }
    ensures only { (rest : List ℕ) → steps ≡ count → bytes.now ≡ codes "end\n" ++ rest
        → IsSomeAnd result (λ x. x.now ≡ rest) }
{
    if steps == count {
        strip_prefix(bytes, b"end\n")
    } else {
        None
    }
}

/// The line that the bytes begin with, where it may come after so many steps of so many in all, and what comes after
/// it.
pub fn read_body_line<'a>(
    alloc: Global,
    setting: &Setting,
    steps: u64,
    count: u64,
    bytes: &'a [u8],
) -> Result<Option<(BodyLine, &'a [u8])>, NoMemory>
    requires trap { IsTrap setting.now.trap }
    requires circuit { IsCircuit setting.now.circuit }
    ensures found { IfOk result
        (λ o. IfSome o (λ x. bytes.now ≡ line_text setting.now (steps + 1) x.0 ++ x.1.now)) }
    ensures may { IfOk result
        (λ o. IfSome o
        (λ x. (begun : List (List AnAction)) → length begun ≡ steps
        → MayFollow setting.now.trap setting.now.circuit count begun x.0)) }
    ensures only { IfOk result
        (λ o. (begun : List (List AnAction)) (line : ABodyLine) (rest : List ℕ) → length begun ≡ steps
        → MayFollow setting.now.trap setting.now.circuit count begun line
        → bytes.now ≡ line_text setting.now (steps + 1) line ++ rest
        → IsSomeAnd o (λ x. (x.0 ≡ line) × (x.1.now ≡ rest))) }
{
    if let Some(rest) = read_step(bytes, steps, count) {
        return Ok(Some((BodyLine::Step, rest)));
    }
    if let Some(rest) = read_end(bytes, steps, count) {
        return Ok(Some((BodyLine::End, rest)));
    }
    if steps == 0 {
        return Ok(None);
    }
    match read_action(alloc, setting, bytes)? {
        Some((action, rest)) => Ok(Some((BodyLine::Act(action), rest))),
        None => Ok(None),
    }
}
