//! Tests of the circuit language: circuits and which of their operations are ready, tokens, programs and expansion.
#![tactic(auto)]

#[cfg(test)]
mod tests;
