//! Why there is no search.

use qc_base::NoMemory;

/// What has a limit.
#[derive(Clone, Copy, Debug, PartialEq, Eq)]
pub enum Count {
    Ions,
    Places,
    /// The operations, barriers among them.
    Ops,
    /// The most steps that are asked for.
    Max,
}

/// Why there is no search.
#[derive(Clone, Copy, Debug, PartialEq, Eq)]
pub enum ExactFault {
    /// The first count that is above its limit.
    TooLarge { what: Count, count: u64 },
    NoMemory,
}

impl From<NoMemory> for ExactFault {
    ghost use Rattle.std.specs.Prelude.{◌≡◌};
    ghost use Rattle.exact_search.specs.declared.fault.ExactFault.TheVariants.{NoMemory};

    ghost from_gives = { λ _ e. e ≡ NoMemory };

    fn from(_e: qc_base::NoMemory) -> ExactFault {
        ExactFault::NoMemory
    }
}
