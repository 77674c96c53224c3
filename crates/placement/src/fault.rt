//! Why a rule gives no placement.

use qc_base::{Name, PlaceId};
use std::alloc::{AllocError, AllocFailed};
use step_rules::GivenFault;

/// Why a rule gives no placement.
#[derive(Debug, Drop, PartialEq, Eq)]
pub enum PlaceFault {
    /// More qubits than the zones have places that a filling rule uses.
    TooManyQubits { qubits: u64, room: u64 },
    /// The trap file gives no labels.
    NoTable,
    /// A label that names no qubit.
    UnknownQubit { zone: PlaceId, label: Name },
    /// The qubits that the labels name are no placement.
    Given(GivenFault),
    NoMemory,
}

impl From<qc_base::NoMemory> for PlaceFault {
    ghost use Rattle.std.specs.Prelude.{◌≡◌};
    ghost use Rattle.placement.specs.declared.fault.PlaceFault.TheVariants.{NoMemory};

    ghost from_gives = { λ _ e. e ≡ NoMemory };

    fn from(_e: qc_base::NoMemory) -> PlaceFault {
        PlaceFault::NoMemory
    }
}

impl From<AllocError> for PlaceFault {
    ghost use Rattle.std.specs.Prelude.{◌≡◌};
    ghost use Rattle.placement.specs.declared.fault.PlaceFault.TheVariants.{NoMemory};

    ghost from_gives = { λ _ e. e ≡ NoMemory };

    fn from(_e: AllocError) -> PlaceFault {
        PlaceFault::NoMemory
    }
}

impl<T: Drop> From<AllocFailed<T>> for PlaceFault {
    ghost use Rattle.std.specs.Prelude.{◌≡◌};
    ghost use Rattle.placement.specs.declared.fault.PlaceFault.TheVariants.{NoMemory};

    ghost from_gives = { λ _ e. e ≡ NoMemory };

    fn from(_e: AllocFailed<T>) -> PlaceFault {
        PlaceFault::NoMemory
    }
}

impl From<GivenFault> for PlaceFault {
    ghost use Rattle.std.specs.Prelude.{◌≡◌};
    ghost use Rattle.placement.specs.Faults.{fault_of};

    ghost from_gives = { λ fault e. e ≡ fault_of fault };

    fn from(fault: GivenFault) -> PlaceFault {
        match fault {
            GivenFault::NoMemory => PlaceFault::NoMemory,
            fault => PlaceFault::Given(fault),
        }
    }
}
