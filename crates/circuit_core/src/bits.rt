//! The bits that an operation acts on.

ghost use Rattle.std.specs.Prelude.{◌≡◌};
ghost use Rattle.circuit_core.specs.Circuit.{IsCircuit, IsOpOf, first_bit};
ghost use Rattle.circuit_core.specs.Deciding.{written, tested, do_overlap, share_bit as has_common_bit};

use crate::circuit::{Circuit, Reg};
use crate::op::Op;

/// The bits from one on, up to another, without that.
#[derive(Clone, Copy, Debug, PartialEq, Eq)]
pub(crate) struct BitRange {
    pub from: u32,
    pub end: u32,
}

/// The bit that the operation writes.
pub(crate) fn written(circuit: &Circuit, op: &Op) -> Option<BitRange>
    requires circuit { IsCircuit circuit.now }
    requires op { IsOpOf circuit.now op.now }
    ensures { result ≡ written op.now }
{
    let bit = op.bit()?;
    Some(BitRange {
        from: bit.0,
        end: bit.0 + 1,
    })
}

/// All bits of the register that its condition tests.
pub(crate) fn tested(circuit: &Circuit, op: &Op) -> Option<BitRange>
    requires { IsCircuit circuit.now }
    ensures { result ≡ tested circuit.now op.now }
{
    let cond = op.cond()?;
    let reg = circuit.cregs().get(cond.creg.0 as usize)?;
    let from = circuit.first_bit(cond.creg);
    Some(BitRange {
        from,
        end: from + reg.size,
    })
}

// Whether both have a bit.
fn do_overlap(a: Option<BitRange>, b: Option<BitRange>) -> bool
    ensures { result ≡ do_overlap a b }
{
    match (a, b) {
        (Some(a), Some(b)) => a.from.max(b.from) < a.end.min(b.end),
        _ => false,
    }
}

/// Whether both act on one bit.
pub(crate) fn share_bit(circuit: &Circuit, first: &Op, second: &Op) -> bool
    requires circuit { IsCircuit circuit.now }
    requires first { IsOpOf circuit.now first.now }
    requires second { IsOpOf circuit.now second.now }
    ensures { result ≡ has_common_bit circuit.now first.now second.now }
{
    let (mine, others) = (written(circuit, first), written(circuit, second));
    let (my_test, other_test) = (tested(circuit, first), tested(circuit, second));
    do_overlap(mine, others)
        || do_overlap(mine, other_test)
        || do_overlap(my_test, others)
        || do_overlap(my_test, other_test)
}
