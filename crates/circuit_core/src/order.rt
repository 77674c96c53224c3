//! Which operation has to come before which.

ghost use Rattle.std.specs.Prelude.{◌≡◌, ℕ, All, IsTrue, ◌↔◌};
ghost use Rattle.circuit_core.specs.Circuit.{CircuitValue, IsCircuit, IsOpOf};
ghost use Rattle.circuit_core.specs.Order.{Share, Forced};
ghost use Rattle.circuit_core.specs.Deciding.{share_wire as has_common_wire, is_forced, is_shared, comes_first as has_to_come_first};

use crate::bits::share_bit;
use crate::circuit::Circuit;
use crate::op::Op;
use crate::qubit_set::QubitSet;
use qc_base::OpId;

// Whether both act on one qubit or one bit.
fn share_wire(circuit: &Circuit, first: &Op, second: &Op) -> bool
    requires circuit { IsCircuit circuit.now }
    requires first { IsOpOf circuit.now first.now }
    requires second { IsOpOf circuit.now second.now }
    ensures { result ≡ has_common_wire circuit.now first.now second.now }
{
    let mut set = QubitSet::empty();
    set.add(first);
    set.meets(second) || share_bit(circuit, first, second)
}

// Whether the first has to come before the second, with these operations between them.
fn comes_first(circuit: &Circuit, middle: &[Op], first: &Op, second: &Op) -> bool
    requires circuit { IsCircuit circuit.now }
    requires first { IsOpOf circuit.now first.now }
    requires second { IsOpOf circuit.now second.now }
    requires middle { All (IsOpOf circuit.now) middle.now }
    ensures { result ≡ has_to_come_first circuit.now middle.now first.now second.now }
{
    let mut set = QubitSet::empty();
    set.add(first);
    set.reach(middle);
    share_bit(circuit, first, second) || set.meets(second)
}

/// Whether the operations of these numbers share a wire. It takes no memory.
pub fn shares(circuit: &Circuit, i: OpId, j: OpId) -> bool
    ensures wire { IsTrue result ↔ Share circuit.now i.0 j.0 }
    ensures value { result ≡ is_shared circuit.now i.0 j.0 }
{
    let Some(first) = circuit.op(i) else {
        return false;
    };
    let Some(second) = circuit.op(j) else {
        return false;
    };
    share_wire(circuit, first, second)
}

/// Whether the first operation has to come before the second. It takes no memory, and as many looks as there are
/// operations between the two.
pub fn forced(circuit: &Circuit, i: OpId, j: OpId) -> bool
    ensures order { IsTrue result ↔ Forced circuit.now i.0 j.0 }
    ensures value { result ≡ is_forced circuit.now i.0 j.0 }
{
    if i.0 >= j.0 {
        return false;
    }
    let ops = circuit.ops();
    let (first, last) = (i.0 as usize, j.0 as usize);
    if last >= ops.len() {
        return false;
    }
    comes_first(circuit, &ops[first + 1..last], &ops[first], &ops[last])
}

/// What has to come before what is decided by a truth value.
pub fn order_is_decided()
    ensures shared { (circuit : CircuitValue) (i j : ℕ) → IsTrue (is_shared circuit i j) ↔ Share circuit i j }
    ensures forced { (circuit : CircuitValue) (i j : ℕ) → IsTrue (is_forced circuit i j) ↔ Forced circuit i j }
{}
