//! Why a statement is refused.

use qc_base::NoMemory;
use std::alloc::{AllocError, AllocFailed};

/// What there are too many of.
#[derive(Clone, Copy, Debug, PartialEq, Eq)]
pub enum Counted {
    Qubits,
    Bits,
    Formals,
    Applications,
    Ops,
    Nodes,
}

/// Why a statement is refused, wherever it is.
#[derive(Clone, Copy)]
pub enum Cause {
    Include,
    Undeclared,
    Redeclared,
    Kind,
    Params,
    Args,
    Index,
    Zero,
    Sizes,
    Repeated,
    SelfMeasure,
    WideOp,
    AngleLarge,
    TooMany(Counted),
    NoMemory,
}

impl From<NoMemory> for Cause {
    ghost use Rattle.std.specs.Prelude.{◌≡◌};
    ghost use Rattle.gate_names.specs.declared.cause.Cause.TheVariants as cause;

    ghost from_gives = { λ _ e. e ≡ cause.NoMemory };

    fn from(_: NoMemory) -> Cause {
        Cause::NoMemory
    }
}

impl From<AllocError> for Cause {
    ghost use Rattle.std.specs.Prelude.{◌≡◌};
    ghost use Rattle.gate_names.specs.declared.cause.Cause.TheVariants as cause;

    ghost from_gives = { λ _ e. e ≡ cause.NoMemory };

    fn from(_: AllocError) -> Cause {
        Cause::NoMemory
    }
}

impl<T: Drop> From<AllocFailed<T>> for Cause {
    ghost use Rattle.std.specs.Prelude.{◌≡◌};
    ghost use Rattle.gate_names.specs.declared.cause.Cause.TheVariants as cause;

    ghost from_gives = { λ _ e. e ≡ cause.NoMemory };

    fn from(_: AllocFailed<T>) -> Cause {
        Cause::NoMemory
    }
}
