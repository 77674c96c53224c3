//! Registers that were declared.

ghost use Rattle.std.specs.Prelude.{◌≡◌, ◌+◌, ◌<◌, ◌≤◌, [], ◌∷◌, ◌++◌, length, OnOk};
ghost use Rattle.circuit_core.specs.Circuit.{size_of};
ghost use Rattle.gate_names.specs.Causes.{Gives};
ghost use Rattle.gate_expand.specs.Registers.{size_fits};

use circuit_core::Reg;
use gate_names::{Cause, Counted};
use qc_base::{Name, NoMemory};
use std::alloc::Global;
use std::marker::Model;

/// Registers in the order of their declaration.
#[derive(Drop)]
pub struct Registers {
    regs: Vec<Reg>,
    total: u16,
}

impl Model for Registers {
    ghost use Rattle.std.specs.Prelude.{List};
    ghost use Rattle.circuit_core.specs.declared.circuit.Reg.{Reg};
    ghost use Rattle.gate_expand.specs.RegisterLimits.{AreCounted};

    ghost Value = { List Reg };

    ghost view = { λ r. r.regs.items };

    ghost invariant = { λ r. AreCounted r.regs.items r.total };
}

/// The size of a register after so many qubits or bits, if it is not 0 and they are not too many.
pub fn size_in(size: u64, before: u16, limit: u16, what: Counted) -> Result<u16, Cause>
    ensures { Gives (λ size. size) result (size_fits size before limit what) }
{
    if size == 0 {
        return Err(Cause::Zero);
    }
    if before > limit || size > u64::from(limit - before) {
        return Err(Cause::TooMany(what));
    }
    Ok(size as u16)
}

impl Registers {
    /// No register.
    pub fn new(alloc: Global) -> Registers
        ensures { result ≡ [] }
    {
        Registers {
            regs: Vec::new(alloc),
            total: 0,
        }
    }

    /// How many there are.
    pub fn count(&self) -> u16
        ensures { result ≡ length self.now }
    {
        self.regs.len() as u16
    }

    /// Their sizes together.
    pub fn total(&self) -> u16
        ensures { result ≡ size_of self.now }
    {
        self.total
    }

    /// Adds one.
    #[tactic(auto, using(crate::proofs::Sums::size_more))]
    pub fn push(&mut self, alloc: Global, name: &Name, size: u16) -> Result<(), NoMemory>
        requires some { 0 < size }
        requires few { size_of self.old + size ≤ 4096 }
        ensures { OnOk result (self.new ≡ self.old ++ record { name = name.now; size = size } ∷ []) }
    {
        self.regs.push(Reg {
            name: name.copy(alloc)?,
            size: u32::from(size),
        })?;
        self.total += size;
        Ok(())
    }

    /// The registers.
    pub fn into_vec(self) -> Vec<Reg>
        ensures { result.items ≡ self }
    {
        let Registers { regs, .. } = self;
        regs
    }
}
