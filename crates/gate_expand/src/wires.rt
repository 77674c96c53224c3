//! Qubits and bits that an argument names.

ghost use Rattle.std.specs.Prelude.{◌≡◌, fold, map, IfOk, OnOk};
ghost use Rattle.std.specs.List.{list_any};
ghost use Rattle.gate_names.specs.Causes.{Gives};
ghost use Rattle.gate_expand.specs.Arguments.{wires_in, times_of, has_number, wire_at, repeats_at, repeats_from, is_qubit, qubit_at, all_in, with_qubit, distinct_qubits};

use gate_names::Cause;
use qc_base::{NoMemory, Qubit};
use std::alloc::Global;

/// A qubit or a bit, or each of a register, by their numbers.
#[derive(Clone, Copy)]
pub enum Wires {
    One(u32),
    Each { first: u16, size: u16 },
}

impl Wires {
    /// A register, or one of it by its index.
    pub fn of(first: u16, size: u16, index: Option<u64>) -> Result<Wires, Cause>
        ensures { Gives (λ wires. wires) result (wires_in first size index) }
    {
        match index {
            None => Ok(Wires::Each { first, size }),
            Some(index) => {
                if index < u64::from(size) {
                    Ok(Wires::One(u32::from(first) + index as u32))
                } else {
                    Err(Cause::Index)
                }
            }
        }
    }

    /// The number at an index; a single one is repeated.
    pub fn at(self, index: u16) -> u32
        ensures { result ≡ wire_at index self }
    {
        match self {
            Wires::One(number) => number,
            Wires::Each { first, .. } => u32::from(first) + u32::from(index),
        }
    }
}

/// How often an operation on these is made.
pub fn times(wires: &[Wires]) -> Result<u16, Cause>
    ensures { Gives (λ times. times) result (times_of wires.now) }
{
    let mut times = None;
    for one in wires {
        if let Wires::Each { size, .. } = *one {
            match times {
                None => times = Some(size),
                Some(times) => {
                    if size != times {
                        return Err(Cause::Sizes);
                    }
                }
            }
        }
    }
    Ok(times.unwrap_or(1))
}

/// Whether one of them has that number at that index.
fn has_number(wires: &[Wires], index: u16, number: u32) -> bool
    ensures { result ≡ has_number index wires.now number }
{
    for one in wires {
        if one.at(index) == number {
            return true;
        }
    }
    false
}

/// Whether two of them have one number at that index.
fn repeats_at(wires: &[Wires], index: u16) -> bool
    ensures { result ≡ repeats_at index wires.now }
{
    for i in 0..wires.len() {
        if has_number(&wires[i + 1..], index, wires[i].at(index)) {
            return true;
        }
    }
    false
}

/// Whether two of them have one number at one of the first indices.
#[tactic(auto, using(crate::proofs::Counting::repeating))]
pub fn repeats(wires: &[Wires], times: u16) -> bool
    ensures { result ≡ repeats_from 0 times wires.now }
{
    for index in 0..times {
        if repeats_at(wires, index) {
            return true;
        }
    }
    false
}

/// Whether the qubit is among them.
fn contains(qubits: &[Qubit], qubit: Qubit) -> bool
    ensures { result ≡ list_any (is_qubit qubit) qubits.now }
{
    for other in qubits {
        if qubit.0 == other.0 {
            return true;
        }
    }
    false
}

/// Adds a qubit, unless it is there.
fn add_qubit(qubits: &mut Vec<Qubit>, qubit: Qubit) -> Result<(), NoMemory>
    ensures { OnOk result (qubits.new.items ≡ with_qubit qubits.old.items qubit) }
{
    if !contains(qubits, qubit) {
        qubits.push(qubit)?;
    }
    Ok(())
}

/// Adds all qubits of an argument, unless they are there.
#[tactic(auto, using(crate::proofs::Counting::each_more, crate::proofs::Counting::each_done))]
fn add_all(qubits: &mut Vec<Qubit>, wires: Wires) -> Result<(), NoMemory>
    ensures { OnOk result (qubits.new.items ≡ fold with_qubit qubits.old.items (all_in wires)) }
{
    match wires {
        Wires::One(number) => add_qubit(qubits, Qubit(number)),
        Wires::Each { first, size } => {
            for index in 0..size {
                add_qubit(qubits, Qubit(u32::from(first) + u32::from(index)))?;
            }
            Ok(())
        }
    }
}

/// All their qubits in order, repeats dropped.
pub fn distinct(alloc: Global, wires: &[Wires]) -> Result<Vec<Qubit>, NoMemory>
    ensures { IfOk result (λ qubits. qubits.items ≡ distinct_qubits wires.now) }
{
    let mut qubits = Vec::new(alloc);
    for one in wires {
        add_all(&mut qubits, *one)?;
    }
    Ok(qubits)
}

/// The qubits at an index.
pub fn qubits_at(alloc: Global, wires: &[Wires], index: u16) -> Result<Vec<Qubit>, NoMemory>
    ensures { IfOk result (λ qubits. qubits.items ≡ map (qubit_at index) wires.now) }
{
    let mut qubits = Vec::new(alloc);
    for one in wires {
        qubits.push(Qubit(one.at(index)))?;
    }
    Ok(qubits)
}
