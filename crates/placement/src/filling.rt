//! Zones that are filled with qubits in order.

ghost use Rattle.std.specs.Prelude.{◌≡◌, ◌<◌, ◌^◌, IfOk};
ghost use Rattle.placement.specs.Filling.{declared_qubits, share, filled, room};

use circuit_core::{Circuit, Qubits};
use qc_base::{NoMemory, Qubit};
use std::alloc::Global;
use trap_model::ZonePart;

/// The qubits in declared order.
pub fn declared_qubits(alloc: Global, circuit: &Circuit) -> Result<Vec<Qubit>, NoMemory>
    ensures { IfOk result (λ qubits. qubits.items ≡ declared_qubits circuit.now) }
{
    let mut qubits = Vec::new(alloc);
    for number in 0..circuit.qubits() {
        qubits.push(Qubit(number))?;
    }
    Ok(qubits)
}

// How many qubits a zone takes: two places stay free.
fn share(zone: &ZonePart) -> u32
    ensures { result ≡ share zone.now }
{
    zone.capacity.saturating_sub(2)
}

/// How many qubits the zones take.
pub fn room(zones: &[ZonePart]) -> u64
    requires { room zones.now < 2 ^ 64 }
    ensures { result ≡ room zones.now }
{
    let mut room = 0;
    for zone in zones {
        room += share(zone) as u64;
    }
    room
}

/// The zones in order, each with as many of the qubits as it takes.
pub fn filled(alloc: Global, zones: &[ZonePart], qubits: &[Qubit]) -> Result<Vec<Qubits>, NoMemory>
    ensures { IfOk result (λ lists. lists.items ≡ filled zones.now qubits.now) }
{
    let mut lists = Vec::new(alloc);
    let mut rest = qubits;
    for zone in zones {
        let count = (share(zone) as usize).min(rest.len());
        let (first, others) = rest.split_at(count);
        lists.push(Qubits::from_vec(Vec::from_slice(alloc, first)?))?;
        rest = others;
    }
    Ok(lists)
}
