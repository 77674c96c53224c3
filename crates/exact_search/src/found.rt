//! What the search comes to.

use derivation_log::Log;
use step_rules::Schedule;

/// What the search comes to, and the log of what was derived.
#[derive(Debug, Drop)]
pub enum Found {
    /// A schedule with the fewest steps. So many first axioms and derived lines of the log refute that there
    /// is a shorter one; both are 0 for a schedule of no step.
    Least {
        schedule: Schedule,
        log: Log,
        axioms: u64,
        lines: u64,
    },
    /// No schedule is short enough, which so many first derived lines show.
    NoneWithin {
        log: Log,
        lines: u64,
    },
    /// The budget of derived lines is spent; this bound is left.
    Spent {
        log: Log,
        bound: u32,
    },
}
