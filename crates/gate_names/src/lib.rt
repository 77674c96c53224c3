//! What names mean in a program: the table of names, the include library, and declarations of gates with their bodies.
#![tactic(auto)]

mod cause;
mod declarations;
mod gate;
mod gates;
mod library;
mod library_rows;
mod names;
mod table;
mod term;

pub use cause::{Cause, Counted};
pub use declarations::{counts_fit, declare_gate, declare_opaque};
pub use gate::{Gate, Item, Positions};
pub use gates::{CONTROLLED_NOT, Gates, UNIVERSAL};
pub use names::Meaning;
pub use table::Table;
pub use term::{Term, Terms, terms_of};
