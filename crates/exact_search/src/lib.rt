//! The search for a schedule with the fewest steps, and for lines that refute all shorter ones.
#![tactic(auto)]

mod exact;
mod fault;
mod found;
mod laws;
mod search;
mod task;

pub use exact::least;
pub use fault::{Count, ExactFault};
pub use found::Found;
pub use laws::{found_lines_certify, fresh_lines_are_few};
