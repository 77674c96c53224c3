//! Why parts are no trap.

ghost use Rattle.std.specs.Prelude.{◌≡◌};
ghost use Rattle.trap_parts.specs.declared.fault.TrapFault.TheVariants.{NoMemory};

use qc_base::Name;
use std::alloc::{AllocError, AllocFailed};

/// What there are too many of.
#[derive(Clone, Copy, Debug, PartialEq, Eq)]
pub enum Counted {
    Zones,
    Segments,
    Junctions,
    Slots,
}

/// The first test that the parts fail, in the order of the variants. Joins are judged row by row, from row 1.
#[derive(Debug, Drop, PartialEq, Eq)]
pub enum TrapFault {
    NoZone,
    TooMany { what: Counted },
    /// The first name that occurred before.
    Double { name: Name },
    Capacity { zone: Name },
    Length { segment: Name },
    Load { segment: Name },
    /// A name that isn't there, or an end that is missing or too many.
    Unknown { row: u64 },
    /// A join of other sorts than a zone with a segment or a segment with a junction.
    Pair { row: u64 },
    /// An end that is joined before.
    EndTaken { row: u64 },
    /// Not 2 to 4 arms, or both ends of one segment.
    Arms { junction: Name },
    NoMemory,
}

impl From<qc_base::NoMemory> for TrapFault {
    ghost from_gives = { λ _ e. e ≡ NoMemory };

    fn from(_e: qc_base::NoMemory) -> TrapFault {
        TrapFault::NoMemory
    }
}

impl From<AllocError> for TrapFault {
    ghost from_gives = { λ _ e. e ≡ NoMemory };

    fn from(_e: AllocError) -> TrapFault {
        TrapFault::NoMemory
    }
}

impl<T: Drop> From<AllocFailed<T>> for TrapFault {
    ghost from_gives = { λ _ e. e ≡ NoMemory };

    fn from(_e: AllocFailed<T>) -> TrapFault {
        TrapFault::NoMemory
    }
}
