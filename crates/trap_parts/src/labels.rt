//! The labels that a trap file gives.

use qc_base::{Items, Name};

/// Labels of qubits, as a trap file lists them for a zone.
pub type Labels = Items<Name>;

/// The labels that a trap file gives, one list for each zone.
pub type GivenLabels = Items<Labels>;
