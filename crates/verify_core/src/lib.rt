//! Judging the text of a schedule: whether it is one, whether the schedule obeys the trap and performs the
//! circuit, and whether a certificate shows that none has fewer steps.
#![tactic(auto)]

mod certificate;
mod fault;
mod judge;
mod laws;
mod minimum;
mod verification;
mod verify_fault;

pub use fault::CheckFault;
pub use judge::{Checked, check};
pub use laws::{accepted_schedules_are_least, one_judgement, one_verification};
pub use verification::{LIMIT, verify};
pub use verify_fault::{Count, VerifyFault};
