//! What holds of the circuit of each program.

ghost use Rattle.std.specs.Prelude.{◌≡◌, List, Ok};
ghost use Rattle.qasm_read.specs.declared.statement.Placed.{Placed};
ghost use Rattle.qasm_read.specs.WellFormed.{AreWellFormed};
ghost use Rattle.circuit_core.specs.Circuit.{CircuitValue, IsCircuit};
ghost use Rattle.gate_expand.specs.Program.{expanded};
ghost use Rattle.gate_expand.specs.Origins.{AppliesNoBody, ComeFrom, IsOwnPiece, IsPiece};

/// The circuit of a program of well-formed statements is one: each operation is on its qubits and bits, and all
/// limits hold.
pub fn expanded_circuits_are_circuits()
    ensures { (program : List Placed) (circuit : CircuitValue) → AreWellFormed program
        → expanded program ≡ Ok circuit → IsCircuit circuit }
{}

/// Each operation of a circuit comes from one statement of the program, at one index of its spreading, and the
/// circuit is
/// what these make by themselves, in the order of the file and of the indices.
pub fn operations_come_from_statements()
    ensures { (program : List Placed) (circuit : CircuitValue)
        → expanded program ≡ Ok circuit → ComeFrom (IsPiece program) circuit.ops }
{}

/// Where no gate with a body is applied, the circuit is the program's own operations, one for each index of each.
pub fn programs_without_bodies_are_kept()
    ensures { (program : List Placed) (circuit : CircuitValue) → AreWellFormed program → AppliesNoBody program
        → expanded program ≡ Ok circuit → ComeFrom (IsOwnPiece program) circuit.ops }
{}
