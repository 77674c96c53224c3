//! What holds of the texts of each circuit: of the labels of its qubits and bits, and of its operations.

ghost use Rattle.std.specs.Prelude.{◌≡◌, ℕ, ◌<◌, false, Some, Contains};
ghost use Rattle.qc_base.specs.Spelling.{IsFree};
ghost use Rattle.qc_base.specs.declared.ids.Bit.{Bit};
ghost use Rattle.qc_base.specs.declared.ids.Qubit.{Qubit};
ghost use Rattle.circuit_core.specs.declared.op.Op.{Op};
ghost use Rattle.circuit_core.specs.Circuit.{CircuitValue, IsCircuit, qubit_count, bit_count};
ghost use Rattle.circuit_core.specs.Label.{label, bit_label, labelled, is_label_byte};
ghost use Rattle.circuit_core.specs.OpText.{op_text};

/// The label of a qubit is found as that qubit.
pub fn labels_are_found()
    ensures { (circuit : CircuitValue) (qubit : Qubit) → IsCircuit circuit → qubit.0 < qubit_count circuit
        → labelled circuit (label circuit qubit) ≡ Some qubit.0 }
{}

/// No two qubits have one label, and no two bits.
pub fn labels_differ()
    ensures qubits { (circuit : CircuitValue) (a b : Qubit) → IsCircuit circuit → a.0 < qubit_count circuit
        → b.0 < qubit_count circuit → label circuit a ≡ label circuit b → a ≡ b }
    ensures bits { (circuit : CircuitValue) (a b : Bit) → IsCircuit circuit → a.0 < bit_count circuit
        → b.0 < bit_count circuit → bit_label circuit a ≡ bit_label circuit b → a ≡ b }
{}

/// A label has letters, digits, underscores and brackets alone.
pub fn labels_are_words()
    ensures qubits { (circuit : CircuitValue) (qubit : Qubit) (byte : ℕ) → IsCircuit circuit
        → qubit.0 < qubit_count circuit → is_label_byte byte ≡ false → IsFree byte (label circuit qubit) }
    ensures bits { (circuit : CircuitValue) (bit : Bit) (byte : ℕ) → IsCircuit circuit
        → bit.0 < bit_count circuit → is_label_byte byte ≡ false → IsFree byte (bit_label circuit bit) }
{}

/// The text of an operation has no line feed.
pub fn operations_are_lines()
    ensures { (circuit : CircuitValue) (op : Op) → IsCircuit circuit → Contains circuit.ops op
        → IsFree 10 (op_text circuit op) }
{}
