//! The search for a schedule with the fewest steps.

ghost use Rattle.std.specs.Prelude.{◌≡◌, List, IfOk};
ghost use Rattle.qc_base.specs.declared.ids.Qubit.{Qubit};
ghost use Rattle.step_rules.specs.Placement.{IsPlacement};
ghost use Rattle.circuit_core.specs.Circuit.{IsCircuit};
ghost use Rattle.trap_parts.specs.Build.{IsTrap};
ghost use Rattle.step_rules.specs.Setting.{setting_of};
ghost use Rattle.exact_search.specs.TooLarge.{too_large};
ghost use Rattle.step_vars.specs.Encoding.{IsSmall};
ghost use Rattle.exact_search.specs.Found.{IsFound, Answers};

use crate::fault::{Count, ExactFault};
use crate::found::Found;
use crate::search::find_least;
use crate::task::Task;
use circuit_core::Circuit;
use qc_base::NoMemory;
use std::alloc::Global;
use step_rules::Placement;
use step_vars::{Encoding, Vars};
use trap_model::Trap;

// The first of the four counts that is above its limit.
fn first_excess(trap: &Trap, circuit: &Circuit, max: u64) -> Option<ExactFault>
    ensures excess { (placement : List (List Qubit))
        → result ≡ too_large (setting_of trap.now circuit.now placement) max }
    ensures trap { IsTrap trap.now }
    ensures circuit { IsCircuit circuit.now }
{
    let ions = circuit.qubits() as u64;
    let places = trap.places() as u64;
    let ops = circuit.ops().len() as u64;
    let (what, count) = if ions > 16 {
        (Count::Ions, ions)
    } else if places > 48 {
        (Count::Places, places)
    } else if ops > 200 {
        (Count::Ops, ops)
    } else if max > 48 {
        (Count::Max, max)
    } else {
        return None;
    };
    Some(ExactFault::TooLarge { what, count })
}

// The search where all counts are within their limits.
fn search(
    alloc: Global,
    trap: &Trap,
    circuit: &Circuit,
    placement: &Placement,
    max: u32,
    budget: u64,
) -> Result<Found, NoMemory>
    requires trap { IsTrap trap.now }
    requires circuit { IsCircuit circuit.now }
    requires placement { IsPlacement trap.now circuit.now placement.now }
    requires small { IsSmall (setting_of trap.now circuit.now placement.now) max }
    ensures { IfOk result (IsFound (setting_of trap.now circuit.now placement.now) max budget) }
{
    let vars = Vars::new(alloc, trap, circuit, placement, max, Encoding::Counter)?;
    let task = Task {
        alloc,
        trap,
        circuit,
        placement,
        vars,
        budget,
    };
    find_least(&task, max)
}

/// A schedule of at most max steps that plays from the placement and has the fewest steps, or that there is
/// none, or that the budget of derived lines is spent; and the log of what was derived.
pub fn least(
    alloc: Global,
    trap: &Trap,
    circuit: &Circuit,
    placement: &Placement,
    max: u64,
    budget: u64,
) -> Result<Found, ExactFault>
    requires { IsPlacement trap.now circuit.now placement.now }
    ensures { Answers (setting_of trap.now circuit.now placement.now) max budget result }
{
    match first_excess(trap, circuit, max) {
        Some(fault) => Err(fault),
        None => {
            let found = search(alloc, trap, circuit, placement, max as u32, budget)?;
            Ok(found)
        }
    }
}
