//! The counts of a schedule.

/// The steps of a schedule, its actions, and those that perform operations. A count stays at its type's end.
#[derive(Clone, Copy, Debug, PartialEq, Eq)]
pub struct Counts {
    pub steps: u64,
    pub actions: u64,
    pub ops: u64,
}
