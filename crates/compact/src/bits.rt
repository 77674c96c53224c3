//! The bits that an operation acts on.

ghost use Rattle.std.specs.Prelude.{◌≡◌, ℕ, ◌≤◌, ◌↔◌};
ghost use Rattle.circuit_core.specs.Op.{bit_of, cond_of};
ghost use Rattle.circuit_core.specs.Order.{IsTested};
ghost use Rattle.compact.specs.Levels.{IsIn};

use circuit_core::{Circuit, Op};

/// The bits from one on, up to another, without that.
#[derive(Clone, Copy, Debug, PartialEq, Eq)]
pub(crate) struct Bits {
    pub from: usize,
    pub end: usize,
}

/// The bit that the operation writes.
pub(crate) fn written(op: &Op) -> Bits
    ensures order { result.from ≤ result.end }
    ensures bits { (bit : ℕ) → IsIn result bit ↔ (bit_of op.now ≡ Some (record { 0 = bit })) }
{
    match op.bit() {
        Some(bit) => Bits {
            from: bit.0 as usize,
            end: bit.0 as usize + 1,
        },
        None => Bits { from: 0, end: 0 },
    }
}

/// All bits of the register that its condition tests.
pub(crate) fn tested(circuit: &Circuit, op: &Op) -> Bits
    ensures order { result.from ≤ result.end }
    ensures bits { (bit : ℕ) → IsIn result bit ↔ IsTested circuit.now (cond_of op.now) bit }
{
    let none = Bits { from: 0, end: 0 };
    let Some(cond) = op.cond() else {
        return none;
    };
    let Some(reg) = circuit.cregs().get(cond.creg.0 as usize) else {
        return none;
    };
    let from = circuit.first_bit(cond.creg) as usize;
    Bits {
        from,
        end: from + reg.size as usize,
    }
}
