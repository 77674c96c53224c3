//! What it takes to perform an operation.

ghost use Rattle.std.specs.Prelude.{◌≡◌, map, IfOk};
ghost use Rattle.circuit_core.specs.Circuit.{IsCircuit};
ghost use Rattle.circuit_core.specs.Op.{one_or_two};
ghost use Rattle.step_rules.specs.Setting.{need_of as the_need_of};
ghost use Rattle.step_rules.specs.Placement.{ion_of};
ghost use Rattle.greedy_router.specs.Routing.{ions_of, GivesJob, AreJobs};

use circuit_core::{Circuit, Op};
use qc_base::{Ion, NoMemory, Qubit};
use std::alloc::Global;
use step_rules::Placement;
use trap_model::Need;

/// The ions that an operation acts on, in the order of its qubits, and the ability that it needs of its zone.
#[derive(Clone, Copy, Debug, PartialEq, Eq)]
pub(crate) struct Job {
    pub(crate) need: Need,
    pub(crate) first: Ion,
    pub(crate) second: Option<Ion>,
}

/// The ability that an operation needs; a barrier needs none.
pub(crate) fn need_of(op: &Op) -> Option<Need>
    ensures { result ≡ the_need_of op.now }
{
    match op {
        Op::U { .. } => Some(Need::One),
        Op::Cx { .. } => Some(Need::Two),
        Op::Opaque { second: None, .. } => Some(Need::One),
        Op::Opaque {
            second: Some(_),
            ..
        } => Some(Need::Two),
        Op::Measure { .. } | Op::Reset { .. } => Some(Need::Read),
        Op::Barrier { .. } => None,
    }
}

// What it takes to perform an operation on these qubits.
fn on(placement: &Placement, need: Need, first: Qubit, second: Option<Qubit>) -> Job
    ensures need { result.need ≡ need }
    ensures ions { ions_of result ≡ map (ion_of placement.now) (one_or_two first second) }
{
    let first = placement.ion_of(first);
    let second = match second {
        Some(qubit) => Some(placement.ion_of(qubit)),
        None => None,
    };
    Job {
        need,
        first,
        second,
    }
}

// The job of an operation; a barrier has none.
fn job_of(placement: &Placement, op: &Op) -> Option<Job>
    ensures { GivesJob placement.now op.now result }
{
    match op {
        Op::U { qubit, .. } => Some(on(placement, Need::One, *qubit, None)),
        Op::Cx {
            control,
            target,
            ..
        } => Some(on(placement, Need::Two, *control, Some(*target))),
        Op::Opaque { first, second, .. } => {
            let need = if second.is_some() {
                Need::Two
            } else {
                Need::One
            };
            Some(on(placement, need, *first, *second))
        }
        Op::Measure { qubit, .. } | Op::Reset { qubit, .. } => {
            Some(on(placement, Need::Read, *qubit, None))
        }
        Op::Barrier { .. } => None,
    }
}

/// The job of each operation.
pub(crate) fn jobs(
    alloc: Global,
    circuit: &Circuit,
    placement: &Placement,
) -> Result<Vec<Option<Job>>, NoMemory>
    ensures jobs { IfOk result (λ jobs. AreJobs placement.now circuit.now.ops jobs.items) }
    ensures circuit { IsCircuit circuit.now }
{
    let mut jobs = Vec::new(alloc);
    for op in circuit.ops() {
        jobs.push(job_of(placement, op))?;
    }
    Ok(jobs)
}
