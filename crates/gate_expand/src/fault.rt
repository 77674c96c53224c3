//! Why a program has no circuit.

ghost use Rattle.std.specs.Prelude.{◌≡◌};
ghost use Rattle.gate_expand.specs.Faults.{fault_at};

use gate_names::{Cause, Counted};
use thiserror::Error;

/// The first thing that is wrong with a program, and the byte where its statement begins.
#[derive(Clone, Copy, Debug, PartialEq, Eq, Error)]
pub enum ExpandFault {
    /// A file other than `qelib1.inc` is included.
    #[error("byte {at}: include")]
    Include { at: u64 },
    #[error("byte {at}: undeclared")]
    Undeclared { at: u64 },
    #[error("byte {at}: redeclared")]
    Redeclared { at: u64 },
    /// A gate where a register is meant, or another kind of register.
    #[error("byte {at}: wrong kind")]
    Kind { at: u64 },
    #[error("byte {at}: parameters")]
    Params { at: u64 },
    #[error("byte {at}: arguments")]
    Args { at: u64 },
    #[error("byte {at}: index")]
    Index { at: u64 },
    #[error("byte {at}: size zero")]
    Zero { at: u64 },
    #[error("byte {at}: sizes")]
    Sizes { at: u64 },
    #[error("byte {at}: repeated qubit")]
    Repeated { at: u64 },
    #[error("byte {at}: condition on its own register")]
    SelfMeasure { at: u64 },
    /// An opaque gate on three or more qubits is applied.
    #[error("byte {at}: wide operation")]
    WideOp { at: u64 },
    #[error("byte {at}: large angle")]
    AngleLarge { at: u64 },
    #[error("byte {at}: too many {what:?}")]
    TooMany { what: Counted, at: u64 },
    #[error("no memory")]
    NoMemory,
}

impl ExpandFault {
    /// The fault of a statement that begins at that byte.
    pub fn new(cause: Cause, at: u64) -> ExpandFault
        ensures { result ≡ fault_at at cause }
    {
        match cause {
            Cause::Include => ExpandFault::Include { at },
            Cause::Undeclared => ExpandFault::Undeclared { at },
            Cause::Redeclared => ExpandFault::Redeclared { at },
            Cause::Kind => ExpandFault::Kind { at },
            Cause::Params => ExpandFault::Params { at },
            Cause::Args => ExpandFault::Args { at },
            Cause::Index => ExpandFault::Index { at },
            Cause::Zero => ExpandFault::Zero { at },
            Cause::Sizes => ExpandFault::Sizes { at },
            Cause::Repeated => ExpandFault::Repeated { at },
            Cause::SelfMeasure => ExpandFault::SelfMeasure { at },
            Cause::WideOp => ExpandFault::WideOp { at },
            Cause::AngleLarge => ExpandFault::AngleLarge { at },
            Cause::TooMany(what) => ExpandFault::TooMany { what, at },
            Cause::NoMemory => ExpandFault::NoMemory,
        }
    }
}
