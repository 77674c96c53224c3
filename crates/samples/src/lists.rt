//! Lists of qubits, from which placements are made.

ghost use Rattle.std.specs.Prelude.{◌≡◌, ◌<◌, length, flat_map, All, IfOk};
ghost use Rattle.circuit_core.specs.Circuit.{qubit_count};

use circuit_core::{Circuit, Qubits};
use qc_base::Qubit;
use std::alloc::Global;
use std::test::Fail;
use trap_model::Trap;

// The qubits of these numbers, which are below the count.
fn qubits_of(alloc: Global, count: u32, numbers: &[u32]) -> Result<Qubits, Fail>
    ensures { IfOk result (λ qubits. All (λ qubit. qubit.0 < count) qubits) }
{
    let mut qubits = Vec::new(alloc);
    for number in numbers {
        if *number >= count {
            return Err(Fail::new("no such qubit"));
        }
        qubits.push(Qubit(*number))?;
    }
    Ok(Qubits::from_vec(qubits))
}

/// The qubits of these numbers, a list for each zone of the trap.
pub fn lists_of(
    alloc: Global,
    trap: &Trap,
    circuit: &Circuit,
    zones: &[&[u32]],
) -> Result<Vec<Qubits>, Fail>
    ensures zones { IfOk result (λ lists. length lists.items ≡ length trap.now.zones) }
    ensures qubits { IfOk result
        (λ lists. All (λ qubit. qubit.0 < qubit_count circuit.now) (flat_map (λ list. list) lists.items)) }
{
    let count = circuit.qubits();
    let mut lists = Vec::new(alloc);
    for numbers in zones {
        lists.push(qubits_of(alloc, count, numbers)?)?;
    }
    if lists.len() != trap.zones().len() {
        return Err(Fail::new("not a list for each zone"));
    }
    Ok(lists)
}
