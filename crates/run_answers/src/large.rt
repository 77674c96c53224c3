//! What exact mode has limits for.

/// A count that has a limit.
#[derive(Clone, Copy, Debug, PartialEq, Eq)]
pub enum Large {
    /// The ions.
    Ions,
    /// The places of the trap.
    Places,
    /// The operations of the circuit, barriers among them.
    Operations,
    /// The steps: of a schedule, or the most that are asked for.
    Steps,
}
