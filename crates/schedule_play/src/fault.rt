//! Why a schedule does not play.

use qc_base::{NoMemory, OpId};
use std::alloc::AllocFailed;
use step_rules::Rule;

/// The first thing that is wrong with a schedule. Steps and actions are counted from 1.
#[derive(Clone, Copy, Debug, PartialEq, Eq)]
pub enum PlayFault {
    /// An action breaks a rule where its step begins.
    Broken { step: u64, action: u64, rule: Rule },
    /// Two actions of a step work on one place or junction.
    Shared { step: u64, first: u64, second: u64 },
    /// An operation is performed, but one that has to come before it was not performed in an earlier step.
    Early { step: u64, op: OpId, needs: OpId },
    /// An operation was performed before.
    Twice { step: u64, op: OpId },
    /// An operation is not performed.
    Missing { op: OpId },
    NoMemory,
}

impl From<NoMemory> for PlayFault {
    ghost use Rattle.std.specs.Prelude.{◌≡◌};
    ghost use Rattle.schedule_play.specs.declared.fault.PlayFault.TheVariants.{NoMemory};

    ghost from_gives = { λ _ e. e ≡ NoMemory };

    fn from(_e: NoMemory) -> PlayFault {
        PlayFault::NoMemory
    }
}

impl<T: Drop> From<AllocFailed<T>> for PlayFault {
    ghost use Rattle.std.specs.Prelude.{◌≡◌};
    ghost use Rattle.schedule_play.specs.declared.fault.PlayFault.TheVariants.{NoMemory};

    ghost from_gives = { λ _ e. e ≡ NoMemory };

    fn from(_e: AllocFailed<T>) -> PlayFault {
        PlayFault::NoMemory
    }
}
