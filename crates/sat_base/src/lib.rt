//! Literals, clauses and assignments; resolution, derivations and the text of their certificates.
#![tactic(auto)]

mod assignment;
mod certificate;
mod derivation;
mod formula;
mod laws;
mod lit;
mod lit_set;
mod resolution;

pub use assignment::Assignment;
pub use certificate::{Bound, Head};
pub use derivation::{
    derived_lines_follow, fresh_lines_are_new, fresh_lines_differ, good_lines_are_derived,
    one_resolvent, refuted_goal_has_no_model, resolvent_follows,
};
pub use formula::Formula;
pub use laws::{other_variables_are_free, satisfied_by_a_literal, satisfied_by_a_part};
pub use lit::Lit;
pub use lit_set::LitSet;
pub use resolution::Resolution;
