//! Expansion: the circuit of a program, with each application of a gate replaced by what its body makes.
#![tactic(auto)]

mod angles;
mod checks;
mod expansion;
mod fault;
mod laws;
mod made;
mod registers;
mod resolved;
mod wires;
mod work;

pub use expansion::expand;
pub use fault::ExpandFault;
pub use gate_names::Counted;
pub use laws::{
    expanded_circuits_are_circuits, operations_come_from_statements,
    programs_without_bodies_are_kept,
};
