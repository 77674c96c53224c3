//! What the clauses of the encoding mean: the facts of a schedule, and the schedule of facts.
#![tactic(auto)]

mod laws;

pub use laws::{facts_are_schedules, schedules_have_facts};
