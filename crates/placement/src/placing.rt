//! The placement of a rule.

ghost use Rattle.std.specs.Prelude.{◌≡◌, ◌<◌, length, All, IfOk};
ghost use Rattle.std.specs.Option.{ForSome, option_copied};
ghost use Rattle.circuit_core.specs.Circuit.{qubit_count};
ghost use Rattle.step_rules.specs.Placement.{IsPlacement, reading_order};
ghost use Rattle.placement.specs.Faults.{Answers};
ghost use Rattle.placement.specs.Placing.{judged, filling_of, given_of, place_by};
ghost use Rattle.placement.specs.Orders.{IsOrder};

use crate::fault::PlaceFault;
use crate::filling::{declared_qubits, filled, room};
use crate::first_use::qubits_by_first_use;
use crate::named::lists_named;
use crate::rule::PlaceRule;
use circuit_core::{Circuit, Qubits};
use qc_base::Qubit;
use std::alloc::Global;
use step_rules::Placement;
use trap_model::{GivenLabels, Trap};

// The lists as a placement, or why they are none.
fn judged(
    alloc: Global,
    trap: &Trap,
    circuit: &Circuit,
    lists: Vec<Qubits>,
) -> Result<Placement, PlaceFault>
    requires zones { length lists.items ≡ length trap.now.zones }
    requires qubits { All (λ qubit. qubit.0 < qubit_count circuit.now) (reading_order lists.items) }
    ensures answer { Answers result (judged trap.now circuit.now lists.items) }
    ensures placed { IfOk result (IsPlacement trap.now circuit.now) }
{
    Ok(Placement::new(alloc, trap, circuit, lists)?)
}

// The zones filled with the qubits in that order.
fn filling(
    alloc: Global,
    trap: &Trap,
    circuit: &Circuit,
    qubits: &[Qubit],
) -> Result<Placement, PlaceFault>
    requires { IsOrder circuit.now qubits.now }
    ensures answer { Answers result (filling_of trap.now circuit.now qubits.now) }
    ensures placed { IfOk result (IsPlacement trap.now circuit.now) }
{
    let zones = trap.zones();
    let room = room(zones);
    let count = circuit.qubits() as u64;
    if count > room {
        return Err(PlaceFault::TooManyQubits {
            qubits: count,
            room,
        });
    }
    let lists = filled(alloc, zones, qubits)?;
    judged(alloc, trap, circuit, lists)
}

// The qubits that the labels give each zone.
fn given_placement(
    alloc: Global,
    trap: &Trap,
    circuit: &Circuit,
    table: &GivenLabels,
) -> Result<Placement, PlaceFault>
    requires { length table.now ≡ length trap.now.zones }
    ensures answer { Answers result (given_of trap.now circuit.now table.now) }
    ensures placed { IfOk result (IsPlacement trap.now circuit.now) }
{
    let lists = lists_named(alloc, trap, circuit, table.items())?;
    judged(alloc, trap, circuit, lists)
}

/// The placement of the rule, or why it has none. A table of labels has a list for each zone.
pub fn place(
    alloc: Global,
    trap: &Trap,
    circuit: &Circuit,
    rule: PlaceRule,
    given: Option<&GivenLabels>,
) -> Result<Placement, PlaceFault>
    requires { ForSome given (λ table. length table.now ≡ length trap.now.zones) }
    ensures answer { Answers result (place_by trap.now circuit.now rule (option_copied given.entry)) }
    ensures placed { IfOk result (IsPlacement trap.now circuit.now) }
{
    match rule {
        PlaceRule::Declared => {
            let qubits = declared_qubits(alloc, circuit)?;
            filling(alloc, trap, circuit, qubits.as_slice())
        }
        PlaceRule::FirstUse => {
            let qubits = qubits_by_first_use(alloc, circuit)?;
            filling(alloc, trap, circuit, qubits.as_slice())
        }
        PlaceRule::Given => match given {
            Some(table) => given_placement(alloc, trap, circuit, table),
            None => Err(PlaceFault::NoTable),
        },
    }
}
