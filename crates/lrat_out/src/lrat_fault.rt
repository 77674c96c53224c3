//! Why a text is refused.

use qc_base::NoMemory;
use std::alloc::{AllocError, AllocFailed};

/// The first fault of a text of LRAT. Lines are counted from 1.
#[derive(Clone, Copy, Debug, PartialEq, Eq)]
pub enum LratFault {
    /// This line doesn't have the form.
    Line { n: u64 },
    /// This line has the form, and doesn't follow by its hints.
    Hint { n: u64 },
    /// No line has the empty clause.
    NoEmpty,
    /// Memory ran out.
    NoMemory,
}

impl From<NoMemory> for LratFault {
    ghost use Rattle.std.specs.Prelude.{◌≡◌};
    ghost use Rattle.lrat_out.specs.declared.lrat_fault.LratFault.TheVariants.{NoMemory};

    ghost from_gives = { λ _ e. e ≡ NoMemory };

    fn from(_e: qc_base::NoMemory) -> LratFault {
        LratFault::NoMemory
    }
}

impl From<AllocError> for LratFault {
    ghost use Rattle.std.specs.Prelude.{◌≡◌};
    ghost use Rattle.lrat_out.specs.declared.lrat_fault.LratFault.TheVariants.{NoMemory};

    ghost from_gives = { λ _ e. e ≡ NoMemory };

    fn from(_e: AllocError) -> LratFault {
        LratFault::NoMemory
    }
}

impl<T: Drop> From<AllocFailed<T>> for LratFault {
    ghost use Rattle.std.specs.Prelude.{◌≡◌};
    ghost use Rattle.lrat_out.specs.declared.lrat_fault.LratFault.TheVariants.{NoMemory};

    ghost from_gives = { λ _ e. e ≡ NoMemory };

    fn from(_e: AllocFailed<T>) -> LratFault {
        LratFault::NoMemory
    }
}
