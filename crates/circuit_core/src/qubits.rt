//! Lists of qubits.

ghost use Rattle.std.specs.Prelude.{◌≡◌, IfOk};

use qc_base::{Items, NoMemory, Qubit};
use std::alloc::Global;

/// Qubits in order. Clauses see the list.
pub type Qubits = Items<Qubit>;

/// A list of the same qubits.
pub(crate) fn copy_of(alloc: Global, qubits: &Qubits) -> Result<Qubits, NoMemory>
    ensures { IfOk result (λ copy. copy ≡ qubits.now) }
{
    let items = Vec::from_slice(alloc, qubits.items())?;
    Ok(Items::from_vec(items))
}
