//! Which operations are performed, and where they can be.

ghost use Rattle.std.specs.Prelude.{◌≡◌, ◌<◌, ◌&&◌, length};
ghost use Rattle.circuit_core.specs.Deciding.{is_forced};
ghost use Rattle.circuit_core.specs.Order.{is_performed};
ghost use Rattle.step_rules.specs.Setting.{need_of};
ghost use Rattle.step_rules.specs.Guards.{is_able_for};

use circuit_core::{Circuit, Op, forced};
use qc_base::{OpId, PlaceId};
use step_rules::Setting;
use trap_model::{Need, Trap};

// The ability that an operation needs; a barrier needs none.
fn need(op: &Op) -> Option<Need>
    ensures { result ≡ need_of op.now }
{
    match op {
        Op::U { .. } => Some(Need::One),
        Op::Cx { .. } => Some(Need::Two),
        Op::Opaque { second: None, .. } => Some(Need::One),
        Op::Opaque {
            second: Some(_),
            ..
        } => Some(Need::Two),
        Op::Measure { .. } | Op::Reset { .. } => Some(Need::Read),
        Op::Barrier { .. } => None,
    }
}

/// Whether the operation is there and is no barrier.
pub fn is_performed(circuit: &Circuit, op: OpId) -> bool
    ensures { result ≡ is_performed circuit.now op.0 }
{
    match circuit.op(op) {
        Some(op) => !op.is_barrier(),
        None => false,
    }
}

/// Whether the operation is no barrier and has to come before the other.
pub fn is_needed(circuit: &Circuit, before: OpId, op: OpId) -> bool
    ensures { result ≡ (is_performed circuit.now before.0 && is_forced circuit.now before.0 op.0) }
{
    if is_performed(circuit, before) {
        forced(circuit, before, op)
    } else {
        false
    }
}

/// Whether the operation is no barrier and the zone is able to perform it.
pub fn may_perform(setting: &Setting, zone: PlaceId, op: OpId) -> bool
    requires { zone.0 < length setting.now.trap.zones }
    ensures { result ≡ (is_performed setting.now.circuit op.0 && is_able_for setting.now zone.0 op.0) }
{
    if is_performed(setting.circuit, op) {
        is_able(setting, zone, op)
    } else {
        false
    }
}

/// Whether the zone has the ability that the operation needs.
pub fn is_able(setting: &Setting, zone: PlaceId, op: OpId) -> bool
    requires { zone.0 < length setting.now.trap.zones }
    ensures { result ≡ is_able_for setting.now zone.0 op.0 }
{
    match setting.circuit.op(op) {
        Some(op) => match need(op) {
            Some(need) => setting.trap.able(zone, need),
            None => false,
        },
        None => false,
    }
}
