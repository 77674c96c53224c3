//! One run of the program, over any files and any outputs, and the laws of whole runs.
#![tactic(auto)]

mod command;
mod laws;

pub use command::run;
pub use laws::{
    a_certified_schedule_is_verified, a_compiled_schedule_is_legal,
    a_search_without_a_schedule_shows_why, a_verified_schedule_is_least,
    an_ok_compilation_is_compiled, one_outcome,
};
