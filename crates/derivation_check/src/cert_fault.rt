//! Why a certificate is refused.

use qc_base::NoMemory;
use std::alloc::{AllocError, AllocFailed};

/// The first fault of a certificate. Lines are counted from 1, those of the head included.
#[derive(Clone, Copy, Debug, PartialEq, Eq)]
pub enum CertFault {
    /// This line doesn't have the form.
    Line { n: u64 },
    /// This line has the form, and doesn't follow by its hints.
    Bad { n: u64 },
    /// No line refutes what is asked for.
    NotRefuting,
    /// There are more bytes than the limit.
    Endless,
    /// Memory ran out.
    NoMemory,
}

impl From<NoMemory> for CertFault {
    ghost use Rattle.std.specs.Prelude.{◌≡◌};
    ghost use Rattle.derivation_check.specs.declared.cert_fault.CertFault.TheVariants.{NoMemory};

    ghost from_gives = { λ _ e. e ≡ NoMemory };

    fn from(_e: qc_base::NoMemory) -> CertFault {
        CertFault::NoMemory
    }
}

impl From<AllocError> for CertFault {
    ghost use Rattle.std.specs.Prelude.{◌≡◌};
    ghost use Rattle.derivation_check.specs.declared.cert_fault.CertFault.TheVariants.{NoMemory};

    ghost from_gives = { λ _ e. e ≡ NoMemory };

    fn from(_e: AllocError) -> CertFault {
        CertFault::NoMemory
    }
}

impl<T: Drop> From<AllocFailed<T>> for CertFault {
    ghost use Rattle.std.specs.Prelude.{◌≡◌};
    ghost use Rattle.derivation_check.specs.declared.cert_fault.CertFault.TheVariants.{NoMemory};

    ghost from_gives = { λ _ e. e ≡ NoMemory };

    fn from(_e: AllocFailed<T>) -> CertFault {
        CertFault::NoMemory
    }
}
