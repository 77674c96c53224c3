//! Why a put fails.

use qc_base::{Failed, NoMemory};

/// Why nothing, or not all, was put.
#[derive(Clone, Copy, Debug, PartialEq, Eq)]
pub enum PutFault {
    /// The shelf failed.
    Failed,
    NoMemory,
}

impl From<Failed> for PutFault {
    ghost use Rattle.std.specs.Prelude.{◌≡◌};
    ghost use Rattle.put_file.specs.declared.put_fault.PutFault.TheVariants as fault;

    ghost from_gives = { λ _ e. e ≡ fault.Failed };

    fn from(_e: Failed) -> PutFault {
        PutFault::Failed
    }
}

impl From<NoMemory> for PutFault {
    ghost use Rattle.std.specs.Prelude.{◌≡◌};
    ghost use Rattle.put_file.specs.declared.put_fault.PutFault.TheVariants as fault;

    ghost from_gives = { λ _ e. e ≡ fault.NoMemory };

    fn from(_e: NoMemory) -> PutFault {
        PutFault::NoMemory
    }
}
