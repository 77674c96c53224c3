//! Operations of the file that passed the tests before expansion.

use crate::wires::Wires;
use gate_names::Terms;
use qc_base::Items;

/// An operation, with names as numbers, and how often it is made.
#[derive(Drop)]
pub enum Resolved {
    Application {
        gate: usize,
        params: Terms,
        wires: Items<Wires>,
        times: u16,
    },
    Measure {
        qubits: Wires,
        bits: Wires,
        creg: u16,
        times: u16,
    },
    Reset {
        qubits: Wires,
        times: u16,
    },
}
