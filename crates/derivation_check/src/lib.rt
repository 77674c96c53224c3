//! A checker of certificates, fed in pieces.
#![tactic(auto)]

mod cert_fault;
mod checker;
mod head;
mod laws;

pub use cert_fault::CertFault;
pub use checker::Checker;
pub use head::ReadHead;
pub use laws::{accepted_lines_are_good, faults_stay, one_answer, one_head, refutations_refute};
pub use sat_base::{Bound, Head};
