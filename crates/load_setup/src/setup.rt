//! What a load compiles.

ghost use Rattle.std.specs.Prelude.{◌≡◌, IfOk};
ghost use Rattle.load_setup.specs.Setup.{generated_trap, generated_circuit};

use crate::circuit::circuit_of;
use crate::trap::trap_of_six;
use circuit_core::Circuit;
use qc_base::NoMemory;
use std::alloc::Global;
use trap_model::Trap;

/// The trap of each load, and the circuit of the seed.
pub fn generate(alloc: Global, seed: u64) -> Result<(Trap, Circuit), NoMemory>
    ensures trap { IfOk result (λ x. x.0 ≡ generated_trap) }
    ensures circuit { IfOk result (λ x. x.1 ≡ generated_circuit seed) }
{
    let trap = trap_of_six(alloc)?;
    let circuit = circuit_of(alloc, seed)?;
    Ok((trap, circuit))
}
