//! Gates, as they are declared.

ghost use Rattle.std.specs.Prelude.{◌≡◌};
ghost use Rattle.gate_names.specs.Gates.{param_count, qubit_count, has_body};

use crate::term::Terms;
use qc_base::{Items, Name};

/// Positions among the qubits of a gate, in order.
pub type Positions = Items<usize>;

/// An item of a gate's body. Gates are known by their numbers, parameters and qubits by their positions.
#[derive(Drop)]
pub enum Item {
    Call {
        gate: usize,
        params: Terms,
        qubits: Positions,
    },
    Barrier {
        qubits: Positions,
    },
}

/// A gate. One with a body calls gates of lower numbers only.
#[derive(Drop)]
pub enum Gate {
    Universal,
    ControlledNot,
    Opaque {
        name: Name,
        params: usize,
        qubits: usize,
    },
    Body {
        params: usize,
        qubits: usize,
        items: Items<Item>,
    },
}

impl Gate {
    /// How many parameters it has.
    pub fn params(&self) -> usize
        ensures { result ≡ param_count self.now }
    {
        match self {
            Gate::Universal => 3,
            Gate::ControlledNot => 0,
            Gate::Opaque { params, .. } | Gate::Body { params, .. } => *params,
        }
    }

    /// How many qubits it has.
    pub fn qubits(&self) -> usize
        ensures { result ≡ qubit_count self.now }
    {
        match self {
            Gate::Universal => 1,
            Gate::ControlledNot => 2,
            Gate::Opaque { qubits, .. } | Gate::Body { qubits, .. } => *qubits,
        }
    }
    /// Whether it has a body.
    pub fn has_body(&self) -> bool
        ensures { result ≡ has_body self.now }
    {
        matches!(self, Gate::Body { .. })
    }
}
