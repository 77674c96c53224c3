//! Tests of what a run is made of, and of whole runs: devices, words, answers, puts, and the program's files.
#![tactic(auto)]

#[cfg(test)]
mod tests;
