//! Reads the schedule out of a model of the encoding.
#![tactic(auto)]

mod activities;
mod activity;
mod chains;
mod reader;
mod schedule;

pub use schedule::schedule_of;
