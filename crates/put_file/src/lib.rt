//! Putting a file under a name: the bytes of a text, or a certificate that is printed piece by piece.
#![tactic(auto)]

mod certificate;
mod put;
mod put_fault;
mod putting;

pub use certificate::Certificate;
pub use put::Put;
pub use put_fault::PutFault;
