//! Tests of clauses, of limits as clauses, of logs of derivations and their checker, and of the solver.
#![tactic(auto)]

#[cfg(test)]
mod tests;
