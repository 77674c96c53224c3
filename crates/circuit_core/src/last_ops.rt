//! The last operations on the qubits and bits of a circuit.

ghost use Rattle.std.specs.Prelude.{◌≡◌, ◌<◌, ◌++◌, length, None, replicate, All, IfOk, OnOk};
ghost use Rattle.std.specs.Option.{option_to_list};
ghost use Rattle.circuit_core.specs.Circuit.{IsCircuit, IsOpOf};
ghost use Rattle.circuit_core.specs.Op.{qubits_of};
ghost use Rattle.circuit_core.specs.LastOps.{AreTables, AreLast, HasQubit, IsIn, IsRangeBelow, IsNoted, AreNoted};
ghost use Rattle.circuit_core.specs.LastOps.{later as the_later, last_on_qubits, later_than, last_on_bits};
ghost use Rattle.circuit_core.specs.LastOps.{right_before as all_right_before};

use crate::bits::{BitRange, tested, written};
use crate::circuit::Circuit;
use crate::op::Op;
use qc_base::{NoMemory, OpId};
use std::alloc::Global;

/// For each qubit the last operation on it, and for each bit the last that writes it and the last that tests it by
/// its condition.
#[derive(Drop)]
pub(crate) struct LastOps {
    on_qubit: Vec<Option<OpId>>,
    writing: Vec<Option<OpId>>,
    testing: Vec<Option<OpId>>,
}

// The second operation, where it comes after the first.
fn later(first: Option<OpId>, second: Option<OpId>) -> Option<OpId>
    ensures { result ≡ the_later first second }
{
    let second = second?;
    match first {
        Some(first) if first.0 >= second.0 => None,
        _ => Some(second),
    }
}

// Adds the operation, where there is one.
fn push_some(near: &mut Vec<OpId>, op: Option<OpId>) -> Result<(), NoMemory>
    ensures { OnOk result (near.new.items ≡ near.old.items ++ option_to_list op) }
{
    if let Some(op) = op {
        near.push(op)?;
    }
    Ok(())
}

// Adds the last operations on the qubits of an operation.
fn push_on_qubits(near: &mut Vec<OpId>, table: &[Option<OpId>], op: &Op) -> Result<(), NoMemory>
    requires { All (λ qubit. qubit.0 < length table.now) (qubits_of op.now) }
    ensures { OnOk result (near.new.items ≡ near.old.items ++ last_on_qubits table.now (qubits_of op.now)) }
{
    for index in 0..op.width() {
        push_some(near, table[op.qubit(index).0 as usize])?;
    }
    Ok(())
}

// Adds those of these operations that come after the one.
fn push_later(
    near: &mut Vec<OpId>,
    first: Option<OpId>,
    others: &[Option<OpId>],
) -> Result<(), NoMemory>
    ensures { OnOk result (near.new.items ≡ near.old.items ++ later_than first others.now) }
{
    for other in others {
        push_some(near, later(first, *other))?;
    }
    Ok(())
}

// Adds the last that tests the bits of the range, and the last that write one of them after that.
fn push_on_bits(
    near: &mut Vec<OpId>,
    writing: &[Option<OpId>],
    testing: &[Option<OpId>],
    range: Option<BitRange>,
) -> Result<(), NoMemory>
    requires writing { IsRangeBelow (length writing.now) range }
    requires testing { IsRangeBelow (length testing.now) range }
    ensures { OnOk result (near.new.items ≡ near.old.items ++ last_on_bits writing.now testing.now range) }
{
    if let Some(range) = range {
        let (from, end) = (range.from as usize, range.end as usize);
        push_some(near, testing[from])?;
        push_later(near, testing[from], &writing[from..end])?;
    }
    Ok(())
}

// Makes the operation the last on its qubits.
fn note_on_qubits(table: &mut [Option<OpId>], op: &Op, number: OpId)
    requires { All (λ qubit. qubit.0 < length table.old) (qubits_of op.now) }
    ensures { IsNoted table.old table.new number (HasQubit op.now) }
{
    for index in 0..op.width() {
        table[op.qubit(index).0 as usize] = Some(number);
    }
}

// Makes the operation the last on the bits of the range.
fn note_on_bits(table: &mut [Option<OpId>], range: Option<BitRange>, number: OpId)
    requires { IsRangeBelow (length table.old) range }
    ensures { IsNoted table.old table.new number (IsIn range) }
{
    let Some(range) = range else {
        return;
    };
    for bit in range.from..range.end {
        table[bit as usize] = Some(number);
    }
}

// A table of that many entries without an operation.
fn empty_table(alloc: Global, count: u32) -> Result<Vec<Option<OpId>>, NoMemory>
    ensures { IfOk result (λ table. table.items ≡ replicate count None) }
{
    let table = vec![in alloc; None; count as usize]?;
    Ok(table)
}

impl LastOps {
    /// The tables before the first operation.
    pub fn new(alloc: Global, circuit: &Circuit) -> Result<LastOps, NoMemory>
        ensures { IfOk result (λ last. AreLast circuit.now 0 last) }
    {
        let bits = circuit.bits();
        Ok(LastOps {
            on_qubit: empty_table(alloc, circuit.qubits())?,
            writing: empty_table(alloc, bits)?,
            testing: empty_table(alloc, bits)?,
        })
    }

    /// The last operations on what an operation acts on.
    pub fn right_before(
        &self,
        alloc: Global,
        circuit: &Circuit,
        op: &Op,
    ) -> Result<Vec<OpId>, NoMemory>
        requires circuit { IsCircuit circuit.now }
        requires op { IsOpOf circuit.now op.now }
        requires tables { AreTables circuit.now self.now }
        ensures { IfOk result (λ near. near.items ≡ all_right_before circuit.now self.now op.now) }
    {
        let mut near = Vec::new(alloc);
        push_on_qubits(&mut near, &self.on_qubit, op)?;
        push_on_bits(
            &mut near,
            &self.writing,
            &self.testing,
            written(circuit, op),
        )?;
        push_on_bits(&mut near, &self.writing, &self.testing, tested(circuit, op))?;
        Ok(near)
    }

    /// Makes the operation the last on what it acts on.
    pub fn note(&mut self, circuit: &Circuit, op: &Op, number: OpId)
        requires circuit { IsCircuit circuit.now }
        requires op { IsOpOf circuit.now op.now }
        requires tables { AreTables circuit.now self.old }
        ensures { AreNoted circuit.now op.now number self.old self.new }
    {
        note_on_qubits(&mut self.on_qubit, op, number);
        note_on_bits(&mut self.writing, written(circuit, op), number);
        note_on_bits(&mut self.testing, tested(circuit, op), number);
    }
}
