//! The qubits that labels name.

ghost use Rattle.std.specs.Prelude.{◌≡◌, length};
ghost use Rattle.placement.specs.Named.{qubits_named, lists_named};
ghost use Rattle.placement.specs.Faults.{Gives};

use crate::fault::PlaceFault;
use circuit_core::{Circuit, Qubits};
use qc_base::{Name, PlaceId, Qubit};
use std::alloc::Global;
use trap_model::{Labels, Trap};

// The qubits of a zone's labels, or the first label that names none.
fn qubits_named(
    alloc: Global,
    circuit: &Circuit,
    zone: PlaceId,
    labels: &[Name],
) -> Result<Vec<Qubit>, PlaceFault>
    ensures { Gives (λ made. made.items) result (qubits_named circuit.now zone.0 labels.now) }
{
    let mut qubits = Vec::new(alloc);
    for label in labels {
        match circuit.find(label.bytes()) {
            Some(qubit) => qubits.push(qubit)?,
            None => {
                return Err(PlaceFault::UnknownQubit {
                    zone,
                    label: label.copy(alloc)?,
                });
            }
        }
    }
    Ok(qubits)
}

/// The qubits of each zone's labels, or the first label that names none.
pub fn lists_named(
    alloc: Global,
    trap: &Trap,
    circuit: &Circuit,
    table: &[Labels],
) -> Result<Vec<Qubits>, PlaceFault>
    requires { length table.now ≡ length trap.now.zones }
    ensures { Gives (λ made. made.items) result (lists_named circuit.now 0 table.now) }
{
    let count = trap.zones().len() as u32;
    let mut lists = Vec::new(alloc);
    for zone in 0..count {
        let labels = &table[zone as usize];
        let qubits = qubits_named(alloc, circuit, PlaceId(zone), labels.items())?;
        lists.push(Qubits::from_vec(qubits))?;
    }
    Ok(lists)
}
