//! Qubits in the order in which gates on two qubits first use them.

ghost use Rattle.std.specs.Prelude.{◌≡◌, ◌<◌, ◌≤◌, ◌++◌, ◌∷◌, [], List, length, All, IfOk, OnOk};
ghost use Rattle.qc_base.specs.declared.ids.Qubit.{Qubit as AQubit};
ghost use Rattle.circuit_core.specs.Circuit.{IsCircuit};
ghost use Rattle.placement.specs.FirstUse.{operands, by_first_use};
ghost use Rattle.placement.specs.Orders.{AreUsed};

use circuit_core::{Circuit, Op};
use qc_base::{NoMemory, Qubit};
use std::alloc::Global;

// Qubits in the order of their first use, and which of all they are.
#[derive(Drop)]
struct Order {
    qubits: Vec<Qubit>,
    used: Vec<bool>,
}

impl Order {
    // Adds a qubit, unless it is used before.
    fn add(&mut self, qubit: Qubit) -> Result<(), NoMemory>
        requires { qubit.0 < length self.old.used.items }
        ensures len { length self.new.used.items ≡ length self.old.used.items }
        ensures added { (uses : List AQubit) → AreUsed self.old.qubits.items self.old.used.items uses
            → OnOk result (AreUsed self.new.qubits.items self.new.used.items (uses ++ qubit ∷ [])) }
    {
        let number = qubit.0 as usize;
        if self.used[number] {
            return Ok(());
        }
        self.qubits.push(qubit)?;
        self.used[number] = true;
        Ok(())
    }

    // Adds the qubits of a gate on two qubits.
    fn add_operands(&mut self, op: &Op) -> Result<(), NoMemory>
        requires { All (λ (qubit : AQubit). qubit.0 < length self.old.used.items) (operands op.now) }
        ensures len { length self.new.used.items ≡ length self.old.used.items }
        ensures added { (uses : List AQubit) → AreUsed self.old.qubits.items self.old.used.items uses
            → OnOk result (AreUsed self.new.qubits.items self.new.used.items (uses ++ operands op.now)) }
    {
        match op {
            Op::Cx {
                control,
                target,
                ..
            } => self.add_two(*control, *target),
            Op::Opaque {
                first,
                second: Some(second),
                ..
            } => self.add_two(*first, *second),
            _ => Ok(()),
        }
    }

    // Adds the one and then the other.
    fn add_two(&mut self, first: Qubit, second: Qubit) -> Result<(), NoMemory>
        requires first { first.0 < length self.old.used.items }
        requires second { second.0 < length self.old.used.items }
        ensures len { length self.new.used.items ≡ length self.old.used.items }
        ensures added { (uses : List AQubit) → AreUsed self.old.qubits.items self.old.used.items uses
            → OnOk result (AreUsed self.new.qubits.items self.new.used.items (uses ++ first ∷ second ∷ [])) }
    {
        self.add(first)?;
        self.add(second)
    }
}

/// The qubits by first use, and then the others in declared order.
pub fn qubits_by_first_use(alloc: Global, circuit: &Circuit) -> Result<Vec<Qubit>, NoMemory>
    ensures qubits { IfOk result (λ qubits. qubits.items ≡ by_first_use circuit.now) }
    ensures circuit { OnOk result (IsCircuit circuit.now) }
{
    let count = circuit.qubits();
    let mut order = Order {
        qubits: Vec::new(alloc),
        used: vec![in alloc; false; count as usize]?,
    };
    for op in circuit.ops() {
        order.add_operands(op)?;
    }
    for number in 0..count {
        order.add(Qubit(number))?;
    }
    let Order { qubits, used: _ } = order;
    Ok(qubits)
}
