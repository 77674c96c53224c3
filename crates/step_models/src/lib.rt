//! What the models of the clauses of the encoding say: every schedule that plays has one, and each is one's.
#![tactic(auto)]

mod laws;

pub use laws::{
    every_schedule_fits, models_are_schedules, models_have_facts, parts_are_small,
    parts_name_their_variables,
};
