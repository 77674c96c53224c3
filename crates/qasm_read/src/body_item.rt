//! What the body of a gate is made of.

use crate::exp::Exps;
use crate::names::Names;
use qc_base::{Items, Name};

/// An item of a gate's body. Its arguments are names of the gate's qubits.
#[derive(Debug, Drop)]
pub enum BodyItem {
    U {
        params: Exps,
        arg: Name,
    },
    Cx {
        control: Name,
        target: Name,
    },
    Call {
        gate: Name,
        params: Exps,
        args: Names,
    },
    Barrier {
        args: Names,
    },
}

/// The items of a body, in order.
pub type BodyItems = Items<BodyItem>;
