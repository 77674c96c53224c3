//! Tests of the crates that make traps, read their files, place qubits in them and find ways through them, of chains
//! of ions, and of the samples that tests use.
#![tactic(auto)]

#[cfg(test)]
mod tests;
