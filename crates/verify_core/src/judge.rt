//! The check of a schedule's text.

ghost use Rattle.std.specs.Prelude.{◌<◌, ◌^◌, length, IfOk};
ghost use Rattle.step_rules.specs.Play.{actions_of};
ghost use Rattle.verify_core.specs.Judging.{JudgesUnlessMemory};

use crate::fault::CheckFault;
use circuit_core::Circuit;
use schedule_play::play;
use schedule_text::read;
use std::alloc::Global;
use step_rules::{Placement, Schedule};
use trap_model::Trap;

/// A legal schedule, and the placement that it starts from.
#[derive(Debug, Drop)]
pub struct Checked {
    pub placement: Placement,
    pub schedule: Schedule,
}

/// Reads a schedule of the circuit on the trap and plays it: the schedule where it is legal, the first bad line
/// of a text that is none, or the first fault of a schedule that is not legal.
pub fn check(
    alloc: Global,
    trap: &Trap,
    circuit: &Circuit,
    text: &[u8],
) -> Result<Checked, CheckFault>
    ensures judged { JudgesUnlessMemory trap.now circuit.now text.now result }
    ensures few { IfOk result (λ checked. length (actions_of checked.schedule) < 2 ^ 64) }
{
    let (placement, schedule) = read(alloc, trap, circuit, text)?;
    play(alloc, trap, circuit, &placement, &schedule)?;
    Ok(Checked {
        placement,
        schedule,
    })
}
