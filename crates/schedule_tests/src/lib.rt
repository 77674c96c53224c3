//! Tests of the crates that play, tighten, print, read and report schedules, and of the rules below them.
#![tactic(auto)]

#[cfg(test)]
mod tests;
