//! The tests of operations before their expansion.

ghost use Rattle.std.specs.Prelude.{◌≡◌};
ghost use Rattle.gate_names.specs.Causes.{Gives};
ghost use Rattle.gate_expand.specs.Arguments.{qubits_of, all_qubits_of, bits_of};
ghost use Rattle.gate_expand.specs.Operations.{call_resolved, application_resolved, measured_times, measure_resolved, reset_resolved, qop_resolved, measures_into};

use crate::resolved::Resolved;
use crate::wires::{Wires, repeats, times};
use gate_names::{CONTROLLED_NOT, Cause, Gate, Meaning, Table, UNIVERSAL, counts_fit, terms_of};
use qasm_read::{Arg, Exp, Qop};
use qc_base::{Items, Name};
use std::alloc::Global;

/// The qubits of an argument.
#[tactic(auto, unfolding(crate::specs::Arguments::qubits_of))]
fn qubits_of(table: &Table, arg: &Arg) -> Result<Wires, Cause>
    ensures { Gives (λ wires. wires) result (qubits_of table.now arg.now) }
{
    match table.meaning(&arg.name) {
        Some(Meaning::Quantum { first, size }) => Wires::of(first, size, arg.index),
        Some(_) => Err(Cause::Kind),
        None => Err(Cause::Undeclared),
    }
}

/// The qubits of each argument.
pub fn all_qubits_of(alloc: Global, table: &Table, args: &[Arg]) -> Result<Vec<Wires>, Cause>
    ensures { Gives (λ wires. wires.items) result (all_qubits_of table.now args.now) }
{
    let mut all = Vec::new(alloc);
    for arg in args {
        all.push(qubits_of(table, arg)?)?;
    }
    Ok(all)
}

/// The bits of an argument, with the number of their register.
#[tactic(auto, unfolding(crate::specs::Arguments::bits_of))]
fn bits_of(table: &Table, arg: &Arg) -> Result<(u16, Wires), Cause>
    ensures { Gives (λ bits. bits) result (bits_of table.now arg.now) }
{
    match table.meaning(&arg.name) {
        Some(Meaning::Classical { creg, first, size }) => {
            let bits = Wires::of(first, size, arg.index)?;
            Ok((creg, bits))
        }
        Some(_) => Err(Cause::Kind),
        None => Err(Cause::Undeclared),
    }
}

/// An application of a gate whose counts fit.
fn call_resolved(
    alloc: Global,
    gate: usize,
    exps: &[Exp],
    wires: Vec<Wires>,
) -> Result<Resolved, Cause>
    ensures { Gives (λ resolved. resolved) result (call_resolved gate exps.now wires.items) }
{
    let times = times(&wires)?;
    if repeats(&wires, times) {
        return Err(Cause::Repeated);
    }
    Ok(Resolved::Application {
        gate,
        params: terms_of(alloc, &[], exps)?,
        wires: Items::from_vec(wires),
        times,
    })
}

/// An application of a gate by its name.
fn application_resolved(
    alloc: Global,
    table: &Table,
    name: &Name,
    exps: &[Exp],
    args: &[Arg],
) -> Result<Resolved, Cause>
    ensures { Gives (λ resolved. resolved) result (application_resolved table.now name.now exps.now args.now) }
{
    let gate = table.gate_named(name)?;
    counts_fit(table.gates().items().get(gate), exps.len(), args.len())?;
    let wires = all_qubits_of(alloc, table, args)?;
    call_resolved(alloc, gate, exps, wires)
}

/// How often a qubit is measured.
fn measured_times(qubits: Wires, bits: Wires) -> Result<u16, Cause>
    ensures { Gives (λ times. times) result (measured_times qubits bits) }
{
    match (qubits, bits) {
        (Wires::One(_), Wires::One(_)) => Ok(1),
        (Wires::Each { size, .. }, Wires::Each { size: other, .. }) => {
            if other == size {
                Ok(size)
            } else {
                Err(Cause::Sizes)
            }
        }
        _ => Err(Cause::Sizes),
    }
}

/// A measurement.
fn measure_resolved(table: &Table, source: &Arg, target: &Arg) -> Result<Resolved, Cause>
    ensures { Gives (λ resolved. resolved) result (measure_resolved table.now source.now target.now) }
{
    let qubits = qubits_of(table, source)?;
    let (creg, bits) = bits_of(table, target)?;
    let times = measured_times(qubits, bits)?;
    Ok(Resolved::Measure {
        qubits,
        bits,
        creg,
        times,
    })
}

/// A reset of these qubits.
fn reset_resolved(qubits: Wires) -> Resolved
    ensures { result ≡ reset_resolved qubits }
{
    let times = match qubits {
        Wires::One(_) => 1,
        Wires::Each { size, .. } => size,
    };
    Resolved::Reset { qubits, times }
}

/// An operation, once it passed its tests.
pub fn resolve(alloc: Global, table: &Table, op: &Qop) -> Result<Resolved, Cause>
    ensures { Gives (λ resolved. resolved) result (qop_resolved table.now op.now) }
{
    match op {
        Qop::U { params, arg } => {
            counts_fit(Some(&Gate::Universal), params.items().len(), 1)?;
            let wires = vec![in alloc; qubits_of(table, arg)?]?;
            call_resolved(alloc, UNIVERSAL, params.items(), wires)
        }
        Qop::Cx { control, target } => {
            let control = qubits_of(table, control)?;
            let wires = vec![in alloc; control, qubits_of(table, target)?]?;
            call_resolved(alloc, CONTROLLED_NOT, &[], wires)
        }
        Qop::Call { gate, params, args } => {
            application_resolved(alloc, table, gate, params.items(), args.items())
        }
        Qop::Measure { source, target } => measure_resolved(table, source, target),
        Qop::Reset { arg } => Ok(reset_resolved(qubits_of(table, arg)?)),
    }
}

/// Whether it measures a whole register of two or more bits into that register.
pub fn measures_into(op: &Resolved, register: u16) -> bool
    ensures { result ≡ measures_into register op.now }
{
    match op {
        Resolved::Measure {
            bits: Wires::Each { size, .. },
            creg,
            ..
        } => *size >= 2 && *creg == register,
        _ => false,
    }
}
