//! Whether a trap has room for a circuit to be routed on it.

ghost use Rattle.std.specs.Prelude.{◌≡◌, ℕ, ◌<◌, length, MatchResult, MatchOption, IfOk, IsTrue, true, false};
ghost use Rattle.trap_model.specs.Trap.{is_able};
ghost use Rattle.route_find.specs.Distances.{AreDistances};
ghost use Rattle.step_rules.specs.Placement.{IsPlacement};
ghost use Rattle.step_rules.specs.Setting.{setting_of};
ghost use Rattle.greedy_router.specs.Room.{HasRoom, Explains, AreFree, AreReached, AreAble, IsTight, IsApart, IsUnable, IsLeast, free_at};

use crate::job::need_of;
use circuit_core::Circuit;
use qc_base::{NoMemory, OpId, PlaceId};
use route_find::Distances;
use std::alloc::Global;
use step_rules::{Placement, Setting};
use trap_model::{Need, Trap};

/// Why a circuit can't be routed on a trap.
#[derive(Clone, Copy, Debug, PartialEq, Eq)]
pub enum RoomFault {
    /// A zone with fewer than two free places.
    Tight { zone: PlaceId, free: u64 },
    /// A zone to which no walk leads from zone 0.
    Apart { zone: PlaceId },
    /// An operation whose need no zone meets.
    NoAble { op: OpId },
    NoMemory,
}

impl From<NoMemory> for RoomFault {
    ghost use Rattle.std.specs.Prelude.{◌≡◌};
    ghost use Rattle.greedy_router.specs.declared.has_room.RoomFault.TheVariants.{NoMemory};

    ghost from_gives = { λ _ e. e ≡ NoMemory };

    fn from(_e: NoMemory) -> RoomFault {
        RoomFault::NoMemory
    }
}

// How many further ions the zone holds at the start.
fn free(setting: &Setting, zone: PlaceId) -> u32
    requires placed { IsPlacement setting.now.trap setting.now.circuit setting.now.placement }
    requires zone { zone.0 < length setting.now.trap.zones }
    ensures { result ≡ free_at setting.now zone.0 }
{
    setting.trap.limit(zone) - setting.placement.list(zone).len() as u32
}

// The least zone that has fewer than two free places.
fn tight(setting: &Setting) -> Option<PlaceId>
    requires { IsPlacement setting.now.trap setting.now.circuit setting.now.placement }
    ensures { MatchOption result (AreFree setting.now) (λ zone. IsLeast (IsTight setting.now) zone.0) }
{
    for zone in 0..setting.trap.zones().len() as u32 {
        if free(setting, PlaceId(zone)) < 2 {
            return Some(PlaceId(zone));
        }
    }
    None
}

// The least zone to which no walk leads from zone 0.
fn apart(alloc: Global, setting: &Setting) -> Result<Option<PlaceId>, NoMemory>
    ensures { IfOk result (λ zone. MatchOption zone (AreReached setting.now)
        (λ zone. IsLeast (IsApart setting.now) zone.0)) }
{
    let places = setting.trap.places();
    prove!(places > 0);
    let distances = Distances::to(alloc, setting.trap, PlaceId(0))?;
    Ok(unreached(setting, &distances))
}

// The least zone from which no walk leads to zone 0.
fn unreached(setting: &Setting, distances: &Distances) -> Option<PlaceId>
    requires distances { AreDistances setting.now.trap distances.now }
    requires target { distances.now.target ≡ 0 }
    ensures { MatchOption result (AreReached setting.now) (λ zone. IsLeast (IsApart setting.now) zone.0) }
{
    for zone in 0..setting.trap.zones().len() as u32 {
        if distances.distance(PlaceId(zone)).is_none() {
            return Some(PlaceId(zone));
        }
    }
    None
}

// Whether some zone has the ability.
fn is_met(trap: &Trap, need: Need) -> bool
    ensures some { IsTrue result → (zone : ℕ) × (is_able trap.now zone need ≡ true) }
    ensures none { result ≡ false → (zone : ℕ) → is_able trap.now zone need ≡ false }
{
    for zone in 0..trap.zones().len() as u32 {
        if trap.able(PlaceId(zone), need) {
            return true;
        }
    }
    false
}

// The least operation whose need no zone meets.
fn unable(setting: &Setting) -> Option<OpId>
    ensures { MatchOption result (AreAble setting.now) (λ op. IsLeast (IsUnable setting.now) op.0) }
{
    for (number, op) in setting.circuit.ops().iter().enumerate() {
        if let Some(need) = need_of(op) {
            if !is_met(setting.trap, need) {
                return Some(OpId(number as u32));
            }
        }
    }
    None
}

/// Whether there is room: each zone has two free places and can be reached from zone 0, and each operation has a
/// zone that is able to perform it. Otherwise the first fault, by its kind and then by its zone or operation.
pub fn room(
    alloc: Global,
    trap: &Trap,
    circuit: &Circuit,
    placement: &Placement,
) -> Result<(), RoomFault>
    requires { IsPlacement trap.now circuit.now placement.now }
    ensures { let setting = setting_of trap.now circuit.now placement.now in
        MatchResult result (λ _. HasRoom setting) (Explains setting) }
{
    let setting = Setting {
        trap,
        circuit,
        placement,
    };
    if let Some(zone) = tight(&setting) {
        let free = free(&setting, zone) as u64;
        return Err(RoomFault::Tight { zone, free });
    }
    if let Some(zone) = apart(alloc, &setting)? {
        return Err(RoomFault::Apart { zone });
    }
    if let Some(op) = unable(&setting) {
        return Err(RoomFault::NoAble { op });
    }
    Ok(())
}
