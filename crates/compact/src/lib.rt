//! Tight schedules: each action of a list in the first step that those before it leave open.
#![tactic(auto)]

mod bits;
mod clock;
mod laws;
mod levels;
mod orders;
mod row;
mod spots;
mod tight;
mod waiting;
mod wires;

pub use laws::{
    playing_lists_are_serial, rearranged_steps_have_the_same_actions, rearranged_steps_play,
};
pub use tight::tighten;
