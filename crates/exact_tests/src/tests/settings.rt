//! Two zones that a slot joins with qubits in them, placements, and the variables of a setting.

ghost use Rattle.std.specs.Prelude.{◌≡◌, IfOk};
ghost use Rattle.step_rules.specs.Placement.{IsPlacement};
ghost use Rattle.step_vars.specs.Encoding.{IsSmall, vars_of};

use circuit_core::Circuit;
use samples::{circuit_of, cx, lists_of, zones_at_a_slot};
use std::alloc::Global;
use std::process::Abort;
use std::test::Fail;
use step_rules::{Placement, Setting};
use step_vars::{Encoding, Vars};
use trap_model::{Need, Trap};

/// Zones A and B of capacity 4, of which A performs operations on two qubits, joined by one slot of load 1.
pub fn two_zones(alloc: Global) -> Result<Trap, Fail> {
    zones_at_a_slot(alloc, &[(4, &[Need::Two]), (4, &[])])
}

/// Four qubits and a CX of two of them.
pub fn pair_of_four(alloc: Global) -> Result<Circuit, Fail> {
    circuit_of(alloc, 4, 0, Vec::from_array(alloc, [cx(1, 2)])?)
}

/// The qubits of these numbers, a list for each zone.
pub fn placed(
    alloc: Global,
    trap: &Trap,
    circuit: &Circuit,
    zones: &[&[u32]],
) -> Result<Placement, Fail>
    ensures { IfOk result (IsPlacement trap.now circuit.now) }
{
    let lists = lists_of(alloc, trap, circuit, zones)?;
    let placement = Placement::new(alloc, trap, circuit, lists)?;
    Ok(placement)
}

/// The variables up to a number of steps, within the limits of exact mode.
pub fn variables(
    rt: &impl Abort,
    alloc: Global,
    setting: &Setting,
    last: u32,
    encoding: Encoding,
) -> Result<Vars, Fail>
    ensures vars { IfOk result (λ vars. vars ≡ vars_of setting.now vars.encoding vars.steps) }
    ensures small { IfOk result (λ vars. IsSmall setting.now vars.steps) }
    ensures steps { IfOk result (λ vars. vars.steps ≡ last) }
{
    let (trap, circuit, placement) = (setting.trap, setting.circuit, setting.placement);
    assert!(rt; circuit.qubits() <= 16 && trap.places() <= 48);
    assert!(rt; circuit.ops().len() <= 200 && last <= 48);
    let vars = Vars::new(alloc, trap, circuit, placement, last, encoding)?;
    Ok(vars)
}
