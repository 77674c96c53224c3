//! Levels of the wires of a circuit.

ghost use Rattle.std.specs.Prelude.{◌≡◌, ◌≤◌, [], slice_get, slice_index, Some, IfOk, OnOk};
ghost use Rattle.circuit_core.specs.Order.{IsWire};
ghost use Rattle.circuit_core.specs.declared.op.Op.{Op as AnOp};
ghost use Rattle.compact.specs.Levels.{IsGreatest, AreRaised, IsLifted, HasQubit, IsIn, wire_level};

use crate::bits::{Bits, tested, written};
use crate::levels::Levels;
use circuit_core::{Circuit, Op};
use qc_base::{NoMemory, OpId};
use std::alloc::Global;
use std::marker::Model;

/// For each qubit and each bit a level. Clauses see the two lists.
#[derive(Debug, Drop)]
pub(crate) struct Wires {
    qubits: Levels,
    bits: Levels,
}

impl Model for Wires {
    ghost use Rattle.compact.specs.Levels.{WiresValue};

    ghost Value = { WiresValue };

    ghost view = { λ w. record { qubits = w.qubits; bits = w.bits } };
}

// The greatest level of an operation's qubits.
fn greatest_of_qubits(levels: &Levels, op: &Op) -> usize
    ensures { IsGreatest (HasQubit op.now) (slice_index levels.now) result }
{
    let mut greatest = 0;
    for index in 0..op.width() {
        greatest = levels.of(op.qubit(index).0 as usize).max(greatest);
    }
    greatest
}

// The greatest level of these bits.
fn greatest_of_bits(levels: &Levels, bits: Bits) -> usize
    requires { bits.from ≤ bits.end }
    ensures { IsGreatest (IsIn bits) (slice_index levels.now) result }
{
    let mut greatest = 0;
    for bit in bits.from..bits.end {
        greatest = levels.of(bit).max(greatest);
    }
    greatest
}

// Raises the levels of an operation's qubits.
fn raise_qubits(levels: &mut Levels, op: &Op, level: usize) -> Result<(), NoMemory>
    ensures { OnOk result (AreRaised (HasQubit op.now) (slice_index levels.old) (slice_index levels.new) level) }
{
    for index in 0..op.width() {
        levels.raise(op.qubit(index).0 as usize, level)?;
    }
    Ok(())
}

// Raises the levels of these bits.
fn raise_bits(levels: &mut Levels, bits: Bits, level: usize) -> Result<(), NoMemory>
    requires { bits.from ≤ bits.end }
    ensures { OnOk result (AreRaised (IsIn bits) (slice_index levels.old) (slice_index levels.new) level) }
{
    for bit in bits.from..bits.end {
        levels.raise(bit, level)?;
    }
    Ok(())
}

impl Wires {
    /// All levels are 0.
    pub fn new(alloc: Global) -> Wires
        ensures { result ≡ record { qubits = []; bits = [] } }
    {
        Wires {
            qubits: Levels::new(alloc),
            bits: Levels::new(alloc),
        }
    }

    /// The greatest level of what an operation acts on.
    pub fn greatest(&self, circuit: &Circuit, op: &Op) -> usize
        ensures { IsGreatest (IsWire circuit.now op.now) (wire_level self.now) result }
    {
        let qubits = greatest_of_qubits(&self.qubits, op);
        let written = greatest_of_bits(&self.bits, written(op));
        let tested = greatest_of_bits(&self.bits, tested(circuit, op));
        qubits.max(written).max(tested)
    }

    /// Raises the levels of what an operation acts on to at least that.
    pub fn raise(&mut self, circuit: &Circuit, op: &Op, level: usize) -> Result<(), NoMemory>
        ensures { OnOk result
            (AreRaised (IsWire circuit.now op.now) (wire_level self.old) (wire_level self.new) level) }
    {
        raise_qubits(&mut self.qubits, op, level)?;
        raise_bits(&mut self.bits, written(op), level)?;
        raise_bits(&mut self.bits, tested(circuit, op), level)?;
        Ok(())
    }
    /// Counts a barrier: raises what it acts on to the greatest level of that, and answers the level.
    pub fn lift(&mut self, circuit: &Circuit, barrier: OpId) -> Result<usize, NoMemory>
        ensures { IfOk result (λ level. (op : AnOp) → slice_get circuit.now.ops barrier.0 ≡ Some op
            → IsLifted circuit.now op self.old self.new level) }
    {
        let Some(op) = circuit.op(barrier) else {
            return Ok(0);
        };
        let level = self.greatest(circuit, op);
        self.raise(circuit, op, level)?;
        Ok(level)
    }
}
