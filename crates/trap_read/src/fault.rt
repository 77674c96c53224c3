//! Why a trap file is refused.

ghost use Rattle.std.specs.Prelude.{◌≡◌};
ghost use Rattle.trap_read.specs.Keys.{has_key};

use qc_base::Name;
use std::alloc::{AllocError, AllocFailed};
use thiserror::Error;
use trap_model::TrapFault;

/// A part of a trap file: its top, the rows of an array, or the table `place`.
#[derive(Clone, Copy, Debug, PartialEq, Eq)]
pub enum Section {
    Top,
    Zone,
    Segment,
    Junction,
    Join,
    Place,
}

/// Where a key is or is missing. Rows count from 1; at the top and in the table `place` the row is 0.
#[derive(Debug, Drop, PartialEq, Eq)]
pub struct KeyAt {
    pub section: Section,
    pub row: u32,
    pub key: Name,
}

/// The first refusal of a trap file, or that memory ran out. The fault in `Trap` is never that memory ran out.
#[derive(Debug, Drop, PartialEq, Eq, Error)]
pub enum TrapText {
    #[error("not TOML")]
    Toml,
    #[error("unknown key")]
    Extra { key: KeyAt },
    #[error("missing key")]
    Missing { key: KeyAt },
    #[error("wrong kind")]
    Kind { key: KeyAt },
    #[error("out of range")]
    Range { key: KeyAt },
    #[error("no trap")]
    Trap(TrapFault),
    #[error("out of memory")]
    NoMemory,
}

impl From<qc_base::NoMemory> for TrapText {
    ghost use Rattle.std.specs.Prelude.{◌≡◌};
    ghost use Rattle.trap_read.specs.declared.fault.TrapText.TheVariants.{NoMemory};

    ghost from_gives = { λ _ e. e ≡ NoMemory };

    fn from(_e: qc_base::NoMemory) -> TrapText {
        TrapText::NoMemory
    }
}

impl From<AllocError> for TrapText {
    ghost use Rattle.std.specs.Prelude.{◌≡◌};
    ghost use Rattle.trap_read.specs.declared.fault.TrapText.TheVariants.{NoMemory};

    ghost from_gives = { λ _ e. e ≡ NoMemory };

    fn from(_e: AllocError) -> TrapText {
        TrapText::NoMemory
    }
}

impl<T: Drop> From<AllocFailed<T>> for TrapText {
    ghost use Rattle.std.specs.Prelude.{◌≡◌};
    ghost use Rattle.trap_read.specs.declared.fault.TrapText.TheVariants.{NoMemory};

    ghost from_gives = { λ _ e. e ≡ NoMemory };

    fn from(_e: AllocFailed<T>) -> TrapText {
        TrapText::NoMemory
    }
}

// Whether the top has such a key.
fn is_top_key(key: &str) -> bool
    ensures { result ≡ has_key Section.Top key.now }
{
    let is_rows = key == "zone" || key == "segment" || key == "junction" || key == "join";
    is_rows || key == "place"
}

impl Section {
    ghost use Rattle.std.specs.Prelude.{◌≡◌};
    ghost use Rattle.trap_read.specs.Keys.{has_key};

    // Whether the section has such a key. Those of `place` are judged with the zones.
    pub(crate) fn has_key(self, key: &str) -> bool
        ensures { result ≡ has_key self key.now }
    {
        match self {
            Section::Top => is_top_key(key),
            Section::Zone => key == "name" || key == "capacity" || key == "can",
            Section::Segment => key == "name" || key == "slots" || key == "load",
            Section::Junction => key == "name",
            Section::Join => key == "ends",
            Section::Place => true,
        }
    }
}
