//! Statements.

use crate::arg::Args;
use crate::body_item::BodyItems;
use crate::names::Names;
use crate::qop::Qop;
use qc_base::{Items, Name};

/// A statement.
#[derive(Debug, Drop)]
pub enum Statement {
    Include {
        text: Name,
    },
    Register {
        quantum: bool,
        name: Name,
        size: u64,
    },
    Gate {
        name: Name,
        params: Names,
        qubits: Names,
        body: BodyItems,
    },
    Opaque {
        name: Name,
        params: Names,
        qubits: Names,
    },
    Apply {
        op: Qop,
    },
    Barrier {
        args: Args,
    },
    If {
        creg: Name,
        value: u64,
        op: Qop,
    },
}

/// A statement and the place of its first byte.
#[derive(Debug, Drop)]
pub struct Placed {
    pub at: u64,
    pub statement: Statement,
}

/// A program, as its statements with their places.
pub type Program = Items<Placed>;
