//! Sets of qubits.

ghost use Rattle.std.specs.Prelude.{◌≡◌, ◌++◌, [], List, All};
ghost use Rattle.qc_base.specs.declared.ids.Qubit.{Qubit as AQubit};
ghost use Rattle.circuit_core.specs.declared.op.Op.{Op as AnOp};
ghost use Rattle.circuit_core.specs.Op.{qubits_of};
ghost use Rattle.circuit_core.specs.Deciding.{have_common, reached};
ghost use Rattle.circuit_core.specs.QubitSet.{AreFlags, AreBelow};

use crate::op::Op;
use std::marker::Model;

/// Qubits of a circuit, of which there are at most 128. Clauses see a flag for each number.
#[derive(Drop)]
pub(crate) struct QubitSet {
    flags: [bool; 128],
}

impl Model for QubitSet {
    ghost use Rattle.std.specs.Prelude.{List, Bool};

    ghost Value = { List Bool };

    ghost view = { λ s. s.flags };
}

impl QubitSet {
    /// No qubit.
    pub fn empty() -> QubitSet
        ensures { AreFlags result [] }
    {
        QubitSet {
            flags: [false; 128],
        }
    }

    /// Adds the qubits of an operation.
    pub fn add(&mut self, op: &Op)
        requires { AreBelow (qubits_of op.now) }
        ensures { (qubits : List AQubit) → AreFlags self.old qubits
            → AreFlags self.new (qubits ++ qubits_of op.now) }
    {
        for index in 0..op.width() {
            self.flags[op.qubit(index).0 as usize] = true;
        }
    }

    /// Whether a qubit of the operation is in it.
    pub fn meets(&self, op: &Op) -> bool
        requires { AreBelow (qubits_of op.now) }
        ensures { (qubits : List AQubit) → AreFlags self.now qubits
            → result ≡ have_common qubits (qubits_of op.now) }
    {
        for index in 0..op.width() {
            if self.flags[op.qubit(index).0 as usize] {
                return true;
            }
        }
        false
    }

    /// Adds the qubits of each barrier among these operations, in order, that has one of the set.
    pub fn reach(&mut self, ops: &[Op])
        requires { All (λ (op : AnOp). AreBelow (qubits_of op)) ops.now }
        ensures { (qubits : List AQubit) → AreFlags self.old qubits
            → AreFlags self.new (reached qubits ops.now) }
    {
        for op in ops {
            if op.is_barrier() && self.meets(op) {
                self.add(op);
            }
        }
    }
}
