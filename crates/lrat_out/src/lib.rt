//! Formulas in DIMACS and derivations in LRAT, for the field's own checkers, and a checker of LRAT.
#![tactic(auto)]

mod checking;
mod formula_text;
mod laws;
mod lrat_fault;
mod proof;
mod proof_text;
mod propagate;
mod reading;
mod standing;

pub use checking::accept;
pub use formula_text::dimacs;
pub use laws::{
    a_proof_is_accepted, a_proof_leaves_no_model, exported_lines_are_accepted,
    exported_text_is_a_proof,
};
pub use lrat_fault::LratFault;
pub use proof_text::lrat;
