//! Reads a trap file: the trap and the labels of its table `place`, or the first refusal.
#![tactic(auto)]

mod abilities;
mod ends;
mod fault;
mod file;
mod labels;
mod laws;
mod row;
mod rows;
mod texts;

pub use fault::{KeyAt, Section, TrapText};
pub use file::read;
pub use laws::{labels_for_each_zone, memory_is_no_fault_of_building, traps_of_files_are_right};
pub use trap_model::GivenLabels as GivenPlace;
