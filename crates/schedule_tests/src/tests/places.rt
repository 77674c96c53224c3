//! Where qubits are placed, and where ions are.

ghost use Rattle.std.specs.Prelude.{IfOk};
ghost use Rattle.step_rules.specs.Placement.{IsPlacement};
ghost use Rattle.step_rules.specs.Config.{IsConfigOf};

use circuit_core::Circuit;
use qc_base::{Ion, PlaceId};
use samples::lists_of;
use std::alloc::Global;
use std::process::Abort;
use std::test::Fail;
use step_rules::{Config, Placement};
use trap_model::Trap;

/// The placement of the qubits of these numbers, a list for each zone.
pub fn placed(
    alloc: Global,
    trap: &Trap,
    circuit: &Circuit,
    zones: &[&[u32]],
) -> Result<Placement, Fail>
    ensures { IfOk result (IsPlacement trap.now circuit.now) }
{
    let lists = lists_of(alloc, trap, circuit, zones)?;
    let placement = Placement::new(alloc, trap, circuit, lists)?;
    Ok(placement)
}

fn reads(ions: &[Ion], numbers: &[u32]) -> bool {
    ions.iter().map(|ion| ion.0).eq(numbers.iter().copied())
}

/// Compares the lists of all places.
pub fn compare(rt: &impl Abort, trap: &Trap, config: &Config, places: &[&[u32]])
    requires { IsConfigOf trap.now config.now }
{
    assert!(rt; trap.places() as usize == places.len());
    for place in 0..trap.places() {
        assert!(rt; reads(config.list(PlaceId(place)), places[place as usize]));
    }
}
