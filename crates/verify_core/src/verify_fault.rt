//! Why a schedule and its certificate are not verified.

ghost use Rattle.std.specs.Prelude.{◌≡◌};

use crate::fault::CheckFault;
use derivation_check::CertFault;
use qc_base::{Failed, NoMemory};
use std::alloc::{AllocError, AllocFailed};

/// What has a limit.
#[derive(Clone, Copy, Debug, PartialEq, Eq)]
pub enum Count {
    Ions,
    Places,
    /// The operations, barriers among them.
    Ops,
    Steps,
}

/// Why a schedule and its certificate are not verified.
#[derive(Clone, Copy, Debug, PartialEq, Eq)]
pub enum VerifyFault {
    /// The text is not that of a legal schedule.
    Check(CheckFault),
    /// The first count that is above its limit.
    TooLarge { what: Count, count: u64 },
    /// The shelf failed.
    Failed,
    /// The first fault of the certificate.
    Cert(CertFault),
    NoMemory,
}

impl From<CheckFault> for VerifyFault {
    ghost use Rattle.std.specs.Prelude.{◌≡◌};
    ghost use Rattle.verify_core.specs.Faults.{of_check};

    ghost from_gives = { λ fault e. e ≡ of_check fault };

    fn from(fault: CheckFault) -> VerifyFault {
        match fault {
            CheckFault::NoMemory => VerifyFault::NoMemory,
            _ => VerifyFault::Check(fault),
        }
    }
}

impl From<CertFault> for VerifyFault {
    ghost use Rattle.std.specs.Prelude.{◌≡◌};
    ghost use Rattle.verify_core.specs.Faults.{of_cert};

    ghost from_gives = { λ fault e. e ≡ of_cert fault };

    fn from(fault: CertFault) -> VerifyFault {
        match fault {
            CertFault::NoMemory => VerifyFault::NoMemory,
            _ => VerifyFault::Cert(fault),
        }
    }
}

impl From<NoMemory> for VerifyFault {
    ghost use Rattle.std.specs.Prelude.{◌≡◌};
    ghost use Rattle.verify_core.specs.declared.verify_fault.VerifyFault.TheVariants.{NoMemory};

    ghost from_gives = { λ _ e. e ≡ NoMemory };

    fn from(_e: qc_base::NoMemory) -> VerifyFault {
        VerifyFault::NoMemory
    }
}

impl From<Failed> for VerifyFault {
    ghost use Rattle.std.specs.Prelude.{◌≡◌};
    ghost use Rattle.verify_core.specs.declared.verify_fault.VerifyFault.TheVariants.{Failed};

    ghost from_gives = { λ _ e. e ≡ Failed };

    fn from(_e: qc_base::Failed) -> VerifyFault {
        VerifyFault::Failed
    }
}

impl From<AllocError> for VerifyFault {
    ghost use Rattle.std.specs.Prelude.{◌≡◌};
    ghost use Rattle.verify_core.specs.declared.verify_fault.VerifyFault.TheVariants.{NoMemory};

    ghost from_gives = { λ _ e. e ≡ NoMemory };

    fn from(_e: AllocError) -> VerifyFault {
        VerifyFault::NoMemory
    }
}

impl<T: Drop> From<AllocFailed<T>> for VerifyFault {
    ghost use Rattle.std.specs.Prelude.{◌≡◌};
    ghost use Rattle.verify_core.specs.declared.verify_fault.VerifyFault.TheVariants.{NoMemory};

    ghost from_gives = { λ _ e. e ≡ NoMemory };

    fn from(_e: AllocFailed<T>) -> VerifyFault {
        VerifyFault::NoMemory
    }
}
