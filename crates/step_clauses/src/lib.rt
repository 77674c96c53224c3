//! Emits the clauses of each part of the encoding.
#![tactic(auto)]

mod operations;
mod parts;
mod start;
mod step;

pub use parts::{goal, layer};
