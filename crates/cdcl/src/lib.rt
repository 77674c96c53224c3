//! A solver for clauses that learns from conflicts and logs each clause that it learns.
#![tactic(auto)]

mod analysis;
mod linked;
mod propagation;
mod restarts;
mod solver;
mod verdict;
mod watching;

pub use solver::Solver;
pub use solver_trail::{Assigned, Pick, Recent, Values};
pub use verdict::Verdict;
