//! The rules of placing.

/// How the first placement is chosen.
#[derive(Clone, Copy, Debug, PartialEq, Eq)]
pub enum PlaceRule {
    /// The qubits in declared order, zone after zone.
    Declared,
    /// The qubits in the order in which gates on two qubits first use them, zone after zone.
    FirstUse,
    /// The qubits that the trap file gives each zone.
    Given,
}
