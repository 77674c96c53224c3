//! The circuit and the trap of two files, and the declared placement.

ghost use Rattle.std.specs.Prelude.{IfSome};
ghost use Rattle.encoding_dimacs.specs.Dimacs.{AreReady};

use circuit_core::Circuit;
use placement::{PlaceRule, place};
use std::alloc::Global;
use step_rules::Placement;
use trap_model::Trap;

/// What is encoded.
#[derive(Drop)]
pub struct Inputs {
    pub trap: Trap,
    pub circuit: Circuit,
    pub placement: Placement,
}

// The circuit of a text.
fn circuit_of(alloc: Global, bytes: &[u8]) -> Option<Circuit> {
    let Ok(program) = qasm_read::read(alloc, bytes) else {
        return None;
    };
    gate_expand::expand(alloc, &program).ok()
}

// The trap of a text.
fn trap_of(alloc: Global, bytes: &[u8]) -> Option<Trap> {
    match trap_read::read(alloc, bytes) {
        Ok((trap, _)) => Some(trap),
        Err(_) => None,
    }
}

// A trap and a circuit with the declared placement; none where there is no placement, and where they are
// above the limits of exact mode.
fn placed(alloc: Global, trap: Trap, circuit: Circuit) -> Option<Inputs>
    ensures { IfSome result AreReady }
{
    if circuit.qubits() > 16 || trap.places() > 48 || circuit.ops().len() > 200 {
        return None;
    }
    let Ok(placement) = place(alloc, &trap, &circuit, PlaceRule::Declared, None) else {
        return None;
    };
    Some(Inputs {
        trap,
        circuit,
        placement,
    })
}

impl Inputs {
    /// The circuit and the trap of two texts with the declared placement; none where one of them is refused,
    /// where there is no placement, and where they are above the limits of exact mode.
    pub fn of(alloc: Global, circuit: &[u8], trap: &[u8]) -> Option<Inputs>
        ensures { IfSome result AreReady }
    {
        let circuit = circuit_of(alloc, circuit)?;
        let trap = trap_of(alloc, trap)?;
        placed(alloc, trap, circuit)
    }
}
