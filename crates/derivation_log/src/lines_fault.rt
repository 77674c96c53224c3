//! Why the lines of a certificate are refused.

use qc_base::NoMemory;
use std::alloc::{AllocError, AllocFailed};

/// The first fault of the lines after the head of a certificate.
#[derive(Clone, Copy, Debug, PartialEq, Eq)]
pub enum LinesFault {
    /// This line doesn't have the form.
    Line { n: u64 },
    /// This line has the form, and doesn't follow by its hints.
    Bad { n: u64 },
    /// Memory ran out.
    NoMemory,
}

impl From<NoMemory> for LinesFault {
    ghost use Rattle.std.specs.Prelude.{◌≡◌};
    ghost use Rattle.derivation_log.specs.declared.lines_fault.LinesFault.TheVariants.{NoMemory};

    ghost from_gives = { λ _ e. e ≡ NoMemory };

    fn from(_e: qc_base::NoMemory) -> LinesFault {
        LinesFault::NoMemory
    }
}

impl From<AllocError> for LinesFault {
    ghost use Rattle.std.specs.Prelude.{◌≡◌};
    ghost use Rattle.derivation_log.specs.declared.lines_fault.LinesFault.TheVariants.{NoMemory};

    ghost from_gives = { λ _ e. e ≡ NoMemory };

    fn from(_e: AllocError) -> LinesFault {
        LinesFault::NoMemory
    }
}

impl<T: Drop> From<AllocFailed<T>> for LinesFault {
    ghost use Rattle.std.specs.Prelude.{◌≡◌};
    ghost use Rattle.derivation_log.specs.declared.lines_fault.LinesFault.TheVariants.{NoMemory};

    ghost from_gives = { λ _ e. e ≡ NoMemory };

    fn from(_e: AllocFailed<T>) -> LinesFault {
        LinesFault::NoMemory
    }
}
