//! Whether lists of qubits can be completed to a placement.

ghost use Rattle.std.specs.Prelude.{◌≡◌, ◌<◌, ◌≤◌, ◌^◌, ◌↔◌, ◌++◌, List, length, All, IfOk, IsTrue, MatchBool};
ghost use Rattle.qc_base.specs.declared.ids.Qubit.{Qubit as AQubit};
ghost use Rattle.circuit_core.specs.Circuit.{qubit_count};
ghost use Rattle.trap_parts.specs.Build.{IsTrap};
ghost use Rattle.step_rules.specs.Placement.{reading_order};
ghost use Rattle.schedule_text.specs.Progress.{capacity, Opens};
ghost use Rattle.schedule_text.specs.ZoneLists.{AreOnce, AreMarked, AreIn};

use circuit_core::{Circuit, Qubits};
use qc_base::{NoMemory, Qubit};
use std::alloc::Global;
use trap_model::{Trap, ZonePart};

// How many ions the zones hold together.
fn room(zones: &[ZonePart]) -> usize
    requires { capacity zones.now < 2 ^ 32 }
    ensures { result ≡ capacity zones.now }
{
    let mut room = 0;
    for zone in zones {
        room += zone.capacity as usize;
    }
    room
}

// How many qubits are in the lists.
fn placed_count(lists: &[Qubits]) -> usize
    requires { length (reading_order lists.now) < 2 ^ 32 }
    ensures { result ≡ length (reading_order lists.now) }
{
    let mut count = 0;
    for list in lists {
        count += list.items().len();
    }
    count
}

// Marks the qubits of a list, unless one of them is marked before.
fn mark(flags: &mut Vec<bool>, list: &[Qubit]) -> bool
    requires there { All (λ qubit. qubit.0 < length flags.old.items) list.now }
    ensures len { length flags.new.items ≡ length flags.old.items }
    ensures marked { (before : List AQubit) → AreMarked flags.old.items before
        → MatchBool result (AreMarked flags.new.items (before ++ list.now)) (AreOnce (before ++ list.now) → ⊥) }
{
    for qubit in list {
        let number = qubit.0 as usize;
        if flags[number] {
            return false;
        }
        flags[number] = true;
    }
    true
}

// Whether each zone has room for its list, and no qubit occurs twice.
fn are_apart(
    alloc: Global,
    zones: &[ZonePart],
    circuit: &Circuit,
    lists: &[Qubits],
) -> Result<bool, NoMemory>
    requires qubits { All (λ qubit. qubit.0 < qubit_count circuit.now) (reading_order lists.now) }
    requires few { length lists.now ≤ length zones.now }
    ensures { IfOk result
        (λ apart. IsTrue apart ↔ (AreIn zones.now lists.now × AreOnce (reading_order lists.now))) }
{
    let mut flags = vec![in alloc; false; circuit.qubits() as usize]?;
    for (zone, list) in lists.iter().enumerate() {
        let qubits = list.items();
        if qubits.len() > zones[zone].capacity as usize {
            return Ok(false);
        }
        if !mark(&mut flags, qubits) {
            return Ok(false);
        }
    }
    Ok(true)
}

/// Whether the lists of the first zones can be completed to a placement.
pub fn is_open(
    alloc: Global,
    trap: &Trap,
    circuit: &Circuit,
    lists: &[Qubits],
) -> Result<bool, NoMemory>
    requires trap { IsTrap trap.now }
    requires qubits { All (λ qubit. qubit.0 < qubit_count circuit.now) (reading_order lists.now) }
    requires few { length lists.now ≤ length trap.now.zones }
    ensures { IfOk result (λ opens. IsTrue opens ↔ Opens trap.now circuit.now lists.now) }
{
    let zones = trap.zones();
    if !are_apart(alloc, zones, circuit, lists)? {
        return Ok(false);
    }
    let left = room(&zones[lists.len()..]);
    Ok(circuit.qubits() as usize <= placed_count(lists) + left)
}

/// Whether the zones together have room for all qubits.
pub fn fits(trap: &Trap, circuit: &Circuit) -> bool
    ensures { IsTrue result ↔ (qubit_count circuit.now ≤ capacity trap.now.zones) }
{
    circuit.qubits() as usize <= room(trap.zones())
}
