//! Tests of the encoding's variables and models, of the search for fewest steps, and of verification.
#![tactic(auto)]

#[cfg(test)]
mod tests;
